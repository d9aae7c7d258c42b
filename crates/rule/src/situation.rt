// The situation of a stream: all of the past that the rule needs. For each pair of kinds, the highest strength asked among pairs still
// short, and the least offered.
ghost use Rattle.std.specs.Prelude.{◌≡◌};
ghost use Rattle.rule.specs.Situation.{in_rows, outside_rows, in_columns, asks, offers, joins, pending, fresh};

use operations::Kind;
use tables::table::{Column, Row, Table};

#[derive(Clone, Copy)]
pub struct Situation {
    pub need: Table,
    pub low: Table,
}

impl Situation {
    // No access has been seen.
    pub const FRESH: Situation = Situation {
        need: Table::NONE,
        low: Table::FULL,
    };

    // The constant as a value, so that its promise can be cited.
    pub fn fresh() -> Situation
        ensures { result ≡ fresh }
    {
        Situation::FRESH
    }

    // After an upstream fence with this table.
    pub fn asks(self, fence: Table) -> Situation
        ensures { result ≡ asks fence self }
    {
        let low = self.low;
        Situation {
            need: self.need.higher(fence.exceeding(low)),
            low,
        }
    }

    // After a target fence with this table.
    pub(crate) fn offers(self, fence: Table) -> Situation
        ensures { result ≡ offers fence self }
    {
        Situation {
            need: self.need.exceeding(fence),
            low: self.low.higher(fence),
        }
    }

    // After an access, with the two defaults.
    pub(crate) fn joins(self, upstream: Table, target: Table, kind: Kind) -> Situation
        ensures { result ≡ joins upstream target kind self }
    {
        Situation {
            need: self
                .need
                .higher(in_rows(kind).lower(upstream.exceeding(target))),
            low: self.low.lower(target.higher(outside_rows(kind))),
        }
    }

    // What an access coming now needs, in its columns.
    pub(crate) fn pending(self, kind: Kind) -> Table
        ensures { result ≡ pending kind self }
    {
        self.need.lower(in_columns(kind))
    }
}

// Rows and columns are two types, so each of the two has its match.
fn in_rows(kind: Kind) -> Table
    ensures { result ≡ in_rows kind }
{
    match kind {
        Kind::Ld => Table::row(Row::Ld),
        Kind::Cld => Table::row(Row::Cld),
        Kind::St => Table::row(Row::St),
        Kind::Cst => Table::row(Row::Cst),
    }
}

fn outside_rows(kind: Kind) -> Table
    ensures { result ≡ outside_rows kind }
{
    Table::FULL.exceeding(in_rows(kind))
}

fn in_columns(kind: Kind) -> Table
    ensures { result ≡ in_columns kind }
{
    match kind {
        Kind::Ld => Table::column(Column::Ld),
        Kind::Cld => Table::column(Column::Cld),
        Kind::St => Table::column(Column::St),
        Kind::Cst => Table::column(Column::Cst),
    }
}
