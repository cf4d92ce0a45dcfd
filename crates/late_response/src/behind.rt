ghost use Rattle.std.specs.Prelude.{◌≡◌, ◌↔◌, ℕ, ◌+◌, ◌*◌, ◌≤◌, ◌<◌, length, slice_get, true, Some, None, IfSome};
ghost use Rattle.rt_response.specs.Tables.{IsStarter, IsTable};
ghost use Rattle.late_response.specs.Progress.{IsLive, IsLiveIn, IsClosed, Stands, AreSmall, StartsAt, behind_of as behind_by, marked_at, total};

use crate::progress::Known;
use crate::reach::Reach;
use rt_response::ThreadRow;

/// Returns whether a row is live.
fn is_live(reach: &Reach) -> bool
    ensures { (result ≡ true) ↔ IsLive reach.now }
{
    matches!(reach, Reach::Solved { .. })
}

/// Returns the starter of a row, where it has one that is not live, or is none of so many first rows.
fn lost_starter(row: &ThreadRow, known: &[Known], count: usize) -> Option<u32>
    requires { IsStarter (length known.now) row.now.starter }
    ensures some { IfSome result (λ s. (row.now.starter ≡ Some s) × (IsLiveIn (slice_get known.now s) → count ≤ s)) }
    ensures none { result ≡ None → (s : ℕ) → row.now.starter ≡ Some s → IsLiveIn (slice_get known.now s) × (s < count) }
{
    let starter = row.starter?;
    if is_live(&known[starter as usize].reach) && (starter as usize) < count {
        return None;
    }
    Some(starter)
}

/// Returns the first of so many first rows whose starter is not live, or is none of them, with that starter.
fn first_behind(table: &[ThreadRow], known: &[Known], count: usize) -> Option<(usize, u32)>
    requires table { IsTable table.now }
    requires long { length known.now ≡ length table.now }
    requires count { count ≤ length table.now }
    ensures within { IfSome result (λ r. r.0 < count) }
    ensures starts { IfSome result (λ r. StartsAt table.now r.0 r.1) }
    ensures out { IfSome result (λ r. IsLiveIn (slice_get known.now r.1) → count ≤ r.1) }
    ensures none { result ≡ None → (i s : ℕ) → i < count → StartsAt table.now i s → IsLiveIn (slice_get known.now s) × (s < count) }
{
    'rows: for index in 0..count {
        if let Some(starter) = lost_starter(&table[index], known, count) {
            return Some((index, starter));
        }
    }
    None
}

/// Returns a row with a starter noted that is not live, where the row is.
fn behind_of(known: &Known, starter: u32) -> Known
    ensures { result ≡ behind_by starter known.now }
{
    let reach = match known.reach {
        Reach::Solved { .. } => Reach::Behind { starter },
        out => out,
    };
    Known {
        jitter: known.jitter,
        reach,
    }
}

/// Notes a starter that is not live for all live rows from a row on.
fn mark(known: &mut [Known], first: usize, starter: u32)
    requires { first ≤ length known.old }
    ensures { (i : ℕ) → slice_get known.new i ≡ marked_at first starter known.old i }
{
    'rows: for index in first..known.len() {
        known[index] = behind_of(&known[index], starter);
    }
}

/// Notes the starter of the first row whose starter is lost, for each live row that needs a lost one: one that is not live, or needs such a one.
pub fn close(table: &[ThreadRow], known: &mut [Known])
    requires table { IsTable table.now }
    requires long { length known.old ≡ length table.now }
    requires small { AreSmall known.old }
    ensures stands { (k : ℕ) → Stands table.now k known.old → Stands table.now k known.new }
    ensures small { AreSmall known.new }
    ensures closed { IsClosed table.now known.new }
    ensures rises { total known.old ≤ total known.new }
{
    let mut count = known.len();
    let mut starter = 0;
    'rows: while let Some((first, lost)) = first_behind(table, known, count) {
        count = first;
        starter = lost;
    }
    mark(known, count, starter);
}
