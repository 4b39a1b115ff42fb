//! X1 to X4: the version and the times.
ghost use Rattle.std.specs.Prelude.{◌↔◌, ◌≢◌, ◌<◌, IsTrue};
ghost use Rattle.wire.specs.Tables.{First};
ghost use Rattle.tx_check.specs.Table.{time_causes};

use crate::TxRefusal;
use data_model::Tx;

// The first of X1 to X4 that holds in a block of this time.
pub(crate) fn time_refusal(time: u64, tx: &Tx) -> Option<TxRefusal>
    ensures { First (time_causes time tx.now) result }
{
    let mintime = tx.mintime;
    let maxtime = tx.maxtime;
    if tx.version != 1 {
        return Some(TxRefusal::X1 {
            version: tx.version,
        });
    }
    if is_past(maxtime, mintime) {
        return Some(TxRefusal::X2 { mintime, maxtime });
    }
    if time < mintime {
        return Some(TxRefusal::X3 { mintime, time });
    }
    if is_past(maxtime, time) {
        return Some(TxRefusal::X4 { maxtime, time });
    }
    None
}

// There is a maxtime, and this time passes it.
fn is_past(maxtime: u64, time: u64) -> bool
    ensures { IsTrue result ↔ ((maxtime ≢ 0) × (maxtime < time)) }
{
    maxtime != 0 && time > maxtime
}
