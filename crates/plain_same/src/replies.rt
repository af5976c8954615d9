ghost use Rattle.std.specs.Prelude.{◌≡◌, IsTrue, ◌↔◌};
ghost use Rattle.st_model.specs.declared.reply.Reply.TheVariants as answer;

use crate::refusals::same_refusal;
use st_base::{Key, List, Value};
use st_model::{Placed, Refusal, Reply};

fn is_written(reply: &Reply, number: u64) -> bool
    ensures { IsTrue result ↔ (reply.now ≡ answer.Written number) }
{
    match reply {
        Reply::Written(other) => *other == number,
        _ => false,
    }
}

fn is_found(reply: &Reply, value: &Value) -> bool
    ensures { IsTrue result ↔ (reply.now ≡ answer.Found value.now) }
{
    match reply {
        Reply::Found(other) => other == value,
        _ => false,
    }
}

fn is_view(reply: &Reply, values: &List<Option<Value>>) -> bool
    ensures { IsTrue result ↔ (reply.now ≡ answer.View values.now) }
{
    match reply {
        Reply::View(other) => other == values,
        _ => false,
    }
}

fn is_pairs(reply: &Reply, pairs: &List<(Key, Value)>) -> bool
    ensures { IsTrue result ↔ (reply.now ≡ answer.Pairs pairs.now) }
{
    match reply {
        Reply::Pairs(other) => other == pairs,
        _ => false,
    }
}

fn is_snapshot(reply: &Reply, number: u64) -> bool
    ensures { IsTrue result ↔ (reply.now ≡ answer.Snapshot number) }
{
    match reply {
        Reply::Snapshot(other) => *other == number,
        _ => false,
    }
}

fn is_ingested(reply: &Reply, placed: &List<Placed>) -> bool
    ensures { IsTrue result ↔ (reply.now ≡ answer.Ingested placed.now) }
{
    match reply {
        Reply::Ingested(other) => other == placed,
        _ => false,
    }
}

fn is_refused(reply: &Reply, refusal: &Refusal) -> bool
    ensures { IsTrue result ↔ (reply.now ≡ answer.Refused refusal.now) }
{
    match reply {
        Reply::Refused(other) => same_refusal(other, refusal),
        _ => false,
    }
}

/// Whether the replies are the same.
pub fn same_reply(one: &Reply, other: &Reply) -> bool
    ensures { IsTrue result ↔ (one.now ≡ other.now) }
{
    match one {
        Reply::Written(number) => is_written(other, *number),
        Reply::Found(value) => is_found(other, value),
        Reply::View(values) => is_view(other, values),
        Reply::Pairs(pairs) => is_pairs(other, pairs),
        Reply::Snapshot(number) => is_snapshot(other, *number),
        Reply::Ingested(placed) => is_ingested(other, placed),
        Reply::Nothing => matches!(other, Reply::Nothing),
        Reply::Released => matches!(other, Reply::Released),
        Reply::Made => matches!(other, Reply::Made),
        Reply::Dropped => matches!(other, Reply::Dropped),
        Reply::Flushed => matches!(other, Reply::Flushed),
        Reply::Compacted => matches!(other, Reply::Compacted),
        Reply::Await => matches!(other, Reply::Await),
        Reply::Long => matches!(other, Reply::Long),
        Reply::Refused(refusal) => is_refused(other, refusal),
    }
}
