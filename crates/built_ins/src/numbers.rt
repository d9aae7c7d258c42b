// The built-in models: their numbers, and the names that these count. Private: a row is asked for by its number below 16.
ghost use Rattle.std.specs.Prelude.{◌%◌, ◌<◌, ◌≡◌};
ghost use Rattle.built_ins.specs.inner.Numbers.{name_from, model_from};

use models::held;
use models::model::{Model, Name};
use tables::table::Table;

// A row to a model: its name, its ppo, how many fences it has, and the name and the table of each of three.
#[rattlefmt::skip]
const MODELS: [[u64; 9]; 16] = [
    [0, 0xffff_ffff, 0, 15, 0, 15, 0, 15, 0],
    [1, 0xecff_ffff, 1, 9, 0xffff_ffff, 15, 0, 15, 0],
    [2, 0xecfc_ffff, 1, 9, 0xffff_ffff, 15, 0, 15, 0],
    [3, 0xccff_ffff, 1, 9, 0xffff_ffff, 15, 0, 15, 0],
    [4, 0xccfc_ffff, 1, 9, 0xffff_ffff, 15, 0, 15, 0],
    [5, 0xcccc_ffff, 0, 15, 0, 15, 0, 15, 0],
    [6, 0xcccc_ffff, 2, 10, 0xdcff_ffff, 11, 0xffff_ffff, 15, 0],
    [7, 0, 2, 10, 0x50ff_50ff, 11, 0xffff_ffff, 15, 0],
    [8, 0, 1, 12, 0xffff_ffff, 15, 0, 15, 0],
    [1, 0xecff_ffff, 3, 13, 0xfcff_ffff, 14, 0xefff_ffff, 9, 0xffff_ffff],
    [2, 0xecfc_ffff, 3, 13, 0xfcfc_ffff, 14, 0xefff_ffff, 9, 0xffff_ffff],
    [3, 0xccff_ffff, 3, 13, 0xfcff_ffff, 14, 0xcfff_ffff, 9, 0xffff_ffff],
    [4, 0xccfc_ffff, 3, 13, 0xfcfc_ffff, 14, 0xcfff_ffff, 9, 0xffff_ffff],
    [5, 0xcccc_ffff, 3, 13, 0xfcfc_ffff, 14, 0xcfff_ffff, 9, 0xffff_ffff],
    [7, 0, 2, 10, 0x50ff_50ff, 11, 0xffff_ffff, 15, 0],
    [8, 0, 1, 12, 0xffff_ffff, 15, 0, 15, 0],
];

fn built_name(index: u64) -> Name
    ensures { result ≡ name_from (index % 16) }
{
    let name: &[u8] = match index % 16 {
        0 => b"SC",
        1 => b"TSO",
        2 => b"PLO",
        3 => b"PSO",
        4 => b"LSO",
        5 => b"RMO",
        6 => b"POWERA",
        7 => b"POWER",
        8 => b"ARM",
        9 => b"mfence",
        10 => b"lwsync",
        11 => b"sync",
        12 => b"dmb",
        13 => b"msfence",
        14 => b"mlfence",
        _ => b"",
    };
    held::first_bytes(name)
}

pub(crate) fn built_model(n: usize) -> Model
    requires { n < 16 }
    ensures { result ≡ model_from n }
{
    let [
        name,
        ppo,
        fences,
        first,
        table_1,
        second,
        table_2,
        third,
        table_3,
    ] = MODELS[n];
    let mut model = held::bare_model(built_name(name), Table { packed: ppo });
    model.fences = fences as usize;
    model.tables[0] = table_1;
    model.tables[1] = table_2;
    model.tables[2] = table_3;
    model.names[0] = built_name(first);
    model.names[1] = built_name(second);
    model.names[2] = built_name(third);
    model
}
