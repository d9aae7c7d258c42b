// The parts of a model's text, put on a page one behind another.
ghost use Rattle.std.specs.Prelude.{◌≡◌, [], ◌∷◌, ◌++◌};
ghost use Rattle.tables.specs.Strength.{letter};
ghost use Rattle.tables.specs.Table.{cell};
ghost use Rattle.printing.specs.Putting.{PutOn};
ghost use Rattle.models.specs.Text.{row_text, table_part, fences_text, text_of};
ghost use Rattle.writing.specs.Writing.{fences_of, described};
ghost use Rattle.writing.specs.inner.Parts.{line_part};

use models::model::{Model, Name};
use printing::Page;
use tables::table::{Column, Row, Table};

fn cell_letter(table: Table, row: Row, column: Column) -> u8
    ensures { result ≡ letter (cell table row column) }
{
    table.cell(row, column).letter()
}

// A row and the byte after it.
fn put_row(page: &mut Page, table: Table, row: Row, end: u8)
    ensures { PutOn page.old page.new (row_text table row ++ (end ∷ [])) }
{
    page.put(&[
        cell_letter(table, row, Column::Ld),
        cell_letter(table, row, Column::Cld),
        cell_letter(table, row, Column::St),
        cell_letter(table, row, Column::Cst),
        end,
    ]);
}

fn put_table(page: &mut Page, table: Table)
    ensures { PutOn page.old page.new (table_part table) }
{
    put_row(page, table, Row::Cld, b' ');
    put_row(page, table, Row::Cst, b' ');
    put_row(page, table, Row::Ld, b' ');
    put_row(page, table, Row::St, b'\n');
}

// A keyword, a name, a separator and a table.
fn put_line(page: &mut Page, keyword: &[u8], name: Name, separator: &[u8], table: Table)
    ensures { PutOn page.old page.new (line_part keyword.now name separator.now table) }
{
    page.put(keyword);
    page.put_name(&name.bytes);
    page.put(separator);
    put_table(page, table);
}

// The lines of the first fences, at most sixteen.
fn put_fences(page: &mut Page, fences: usize, names: [Name; 16], tables: [u64; 16])
    ensures { PutOn page.old page.new (fences_text (fences_of fences names tables)) }
{
    for (name, packed) in names.iter().zip(tables.iter()).take(fences) {
        let table = Table { packed: *packed };
        put_line(page, b"fence ", *name, b" ", table);
    }
}

// The whole text.
pub(crate) fn put_model(page: &mut Page, model: Model)
    ensures { PutOn page.old page.new (text_of (described model)) }
{
    put_line(page, b"model ", model.name, b"\nppo ", model.ppo);
    put_fences(page, model.fences, model.names, model.tables);
    page.put(b"end\n");
}
