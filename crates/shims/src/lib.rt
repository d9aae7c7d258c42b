// What a call opens with: a way's number and two model texts, and what they name. The refusals of the way, of the upstream text and of the target
// text, in this order, stand here for every call that takes them.
#![tactic(auto)]

ghost use Rattle.std.specs.Prelude.{◌≡◌, take, Some};
ghost use Rattle.shims.specs.Opening.{way_of, opened_by, opened};
ghost use Rattle.shims.specs.Models.{model_of, shim_between};

use answers::Refusal;
use models::model::Model;
use rule::way::{Shim, Way};

// What a shim stands between, and how it chooses.
#[derive(Clone, Copy)]
pub struct Models {
    pub way: Way,
    pub upstream: Model,
    pub target: Model,
}

// What two models are to the rule: the shim between them, and the tables of each side's fences, which are lent.
#[derive(Clone, Copy)]
pub struct Sides<'a> {
    pub shim: Shim,
    pub fences: &'a [u64],
    pub targets: &'a [u64],
}

// What a call opens with.
pub type Opening = Result<Models, Refusal>;

// The way that a number names, if it names one.
pub fn way_of(number: u64) -> Option<Way>
    ensures { result ≡ way_of number }
{
    match number {
        0 => Some(Way::Sparing),
        1 => Some(Way::Full),
        _ => None,
    }
}

// The tables of a model's fences, of a count past their end all of them.
pub fn fences_of(tables: &[u64], count: usize) -> &[u64]
    ensures { result.now ≡ take count tables.now }
{
    &tables[..count.min(tables.len())]
}

// The way and the two defaults.
pub fn shim_between(models: Models) -> Shim
    ensures { result ≡ shim_between models }
{
    Shim {
        way: models.way,
        upstream: models.upstream.ppo,
        target: models.target.ppo,
    }
}

// The shim between two models, with the fences of each.
pub fn sides_of(models: &Models) -> Sides<'_>
    ensures shim { result.shim ≡ shim_between models.now }
    ensures fences { result.fences.now ≡ (model_of models.now.upstream).fences }
    ensures targets { result.targets.now ≡ (model_of models.now.target).fences }
{
    Sides {
        shim: shim_between(*models),
        fences: fences_of(&models.upstream.tables, models.upstream.fences),
        targets: fences_of(&models.target.tables, models.target.fences),
    }
}

// With the way read.
pub fn read_texts<'a>(way: Way, upstream: &'a [u8], target: &'a [u8]) -> Opening
    ensures { result ≡ opened_by (Some way) upstream.now target.now }
{
    let upstream = models::reader::read(upstream)?;
    let target = models::reader::read(target)?;
    Ok(Models {
        way,
        upstream,
        target,
    })
}

// The way, the upstream model and the target model, or the first refusal among them.
pub fn read_both<'a>(way: u64, upstream: &'a [u8], target: &'a [u8]) -> Opening
    ensures { result ≡ opened way upstream.now target.now }
{
    let way = way_of(way).ok_or(Refusal::OutOfRange)?;
    read_texts(way, upstream, target)
}
