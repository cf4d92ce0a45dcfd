ghost use Rattle.std.specs.Prelude.{◌≡◌, ◌≤◌, ◌+◌, ◌++◌, [], OnOk, IfOk, if◌then◌else◌};
ghost use Rattle.sample_design.specs.Requests.{is_due, request_at, request_line, request_lines, requests_at, sample_arrivals};

use crate::names::numbered;
use crate::threads::{is_sporadic, thread_time};
use seq_print::{put, put_name, put_number};
use seq_tree::NoMemory;
use std::alloc::Global;

/// Adds a request of a thread at a time, with a value.
#[tactic(auto, using(crate::proofs::RequestSteps::line_steps))]
fn put_request(
    alloc: Global,
    text: &mut Vec<u8>,
    time: u32,
    k: u32,
    value: u32,
) -> Result<(), NoMemory>
    requires { k ≤ 30 }
    ensures { OnOk result (text.new.items ≡ text.old.items ++ request_line (record { time = time; thread = k; value = value })) }
{
    let name = numbered(alloc, b't', k)?;
    put_number(text, b"AT ", time, b" ")?;
    put_name(text, b"", &name, b" ")?;
    put_number(text, b"", value, b";\n")?;
    Ok(())
}

/// Adds the request of a thread of so many at a time, where it has one then.
fn put_where_due(
    alloc: Global,
    text: &mut Vec<u8>,
    n: u32,
    time: u32,
    k: u32,
) -> Result<(), NoMemory>
    requires { (1 ≤ n) × (n ≤ 30) × (k ≤ 30) }
    ensures { OnOk result (text.new.items ≡ text.old.items ++ (if is_due n time k then request_line (request_at n time k) else [])) }
{
    if is_sporadic(k) {
        let separation = thread_time(n, k);
        if time % separation == 0 {
            return put_request(alloc, text, time, k, time / separation);
        }
    }
    Ok(())
}

/// Adds the requests of so many threads at a time.
#[tactic(auto, using(crate::proofs::RequestSteps::request_steps))]
fn put_requests(alloc: Global, text: &mut Vec<u8>, n: u32, time: u32) -> Result<(), NoMemory>
    requires { (1 ≤ n) × (n ≤ 30) }
    ensures { OnOk result (text.new.items ≡ text.old.items ++ request_lines (requests_at n time)) }
{
    let end = n + 1;
    'threads: for k in 1..end {
        put_where_due(alloc, text, n, time, k)?;
    }
    Ok(())
}

/// The arrivals of so many threads.
#[tactic(auto, using(crate::proofs::RequestSteps::request_steps))]
pub(crate) fn arrivals(alloc: Global, n: u32) -> Result<Vec<u8>, NoMemory>
    requires { (1 ≤ n) × (n ≤ 30) }
    ensures { IfOk result (λ t. t.items ≡ sample_arrivals n) }
{
    let mut text = Vec::new(alloc);
    put(&mut text, b"UNTIL 10000;\n")?;
    'times: for time in 0..10001 {
        put_requests(alloc, &mut text, n, time)?;
    }
    Ok(text)
}
