ghost use Rattle.std.specs.Prelude.{◌≡◌, [], false};
ghost use Rattle.seq_tree.specs.Layout.{layout, line_text, token_text};
ghost use Rattle.seq_tree.specs.Trees.{block_of, signature_of};
ghost use Rattle.seq_tree.specs.Statements.{End};
ghost use Rattle.ada_tree.specs.Programs.{Sporadic};
ghost use Rattle.ada_tree.specs.Spelling.{inner_body, inner_specification, kept_token, request_token};
ghost use Rattle.seq_print.specs.Printing.{Writes};
ghost use Rattle.ada_print.specs.Requests.{constant_lines, external_line, object_lines, waiting_lines};

use crate::heads::{add_data, add_declaration, add_head, add_renaming};
use crate::tasks::{LAST, add_task};
use seq_print::{print_block, put, put_digits, put_name, put_number};
use seq_tree::{Block, Datum, NoMemory, OpSig, Param};
use std::alloc::Global;

/// What the protected object of a sporadic unit declares before its ceiling.
const OBJECT: &[u8] = b"      protected hrt_obcs is\n         pragma priority (";

/// What it declares behind the request.
const ENTRY: &[u8] = b"         entry hrt_wait (hrt_request : out word);
      private
         hrt_value : word := 0;
         hrt_open : boolean := false;
      end hrt_obcs;
";

/// What its body has behind the request.
const WAIT: &[u8] = b"         entry hrt_wait (hrt_request : out word) when hrt_open is
         begin
            hrt_request := hrt_value;
            hrt_open := false;
         end hrt_wait;
      end hrt_obcs;
";

/// The line that says whether requests come from outside.
fn external_text(external: bool) -> &'static [u8]
    ensures { result.now ≡ line_text (external_line external) }
{
    if external {
        b"      hrt_external : constant boolean := true;\n"
    } else {
        b"      hrt_external : constant boolean := false;\n"
    }
}

/// Adds the three constants of a sporadic unit.
fn add_constants(
    separation: u32,
    jitter: u32,
    external: bool,
    into: &mut Vec<u8>,
) -> Result<(), NoMemory>
    ensures { Writes result into.old.items into.new.items (layout (constant_lines separation jitter external)) }
{
    put_number(
        into,
        b"      hrt_separation : constant := ",
        separation,
        b";\n",
    )?;
    put_number(into, b"      hrt_jitter : constant := ", jitter, b";\n")?;
    put(into, external_text(external))
}

/// Adds what stands in the specification of a sporadic unit.
pub(crate) fn add_sporadic_head(
    priority: u32,
    ceiling: u32,
    op: &OpSig,
    separation: u32,
    jitter: u32,
    external: bool,
    into: &mut Vec<u8>,
) -> Result<(), NoMemory>
    ensures { Writes result into.old.items into.new.items
        (layout (inner_specification (Sporadic priority ceiling (signature_of op.now) separation jitter external [] End))) }
{
    put_number(into, OBJECT, ceiling, b");\n")?;
    add_declaration(op, 3, into)?;
    put(into, ENTRY)?;
    add_renaming(op, b"hrt_obcs", into)?;
    add_task(priority, into)?;
    add_constants(separation, jitter, external, into)
}

/// Adds the value that a request keeps.
fn put_kept(params: &[Param], into: &mut Vec<u8>) -> Result<(), NoMemory>
    ensures { Writes result into.old.items into.new.items (token_text (kept_token params.now)) }
{
    match params.split_first() {
        None => put_digits(into, 0),
        Some((param, _)) => put(into, param.name.bytes()),
    }
}

/// Adds the name of the variable in which a task gets a request.
fn put_request(params: &[Param], into: &mut Vec<u8>) -> Result<(), NoMemory>
    ensures { Writes result into.old.items into.new.items (token_text (request_token params.now)) }
{
    match params.split_first() {
        None => put(into, b"hrt_request"),
        Some((param, _)) => put(into, param.name.bytes()),
    }
}

/// Adds the body of the protected object of a sporadic unit.
fn add_object(op: &OpSig, into: &mut Vec<u8>) -> Result<(), NoMemory>
    ensures { Writes result into.old.items into.new.items (layout (object_lines (signature_of op.now))) }
{
    put(into, b"      protected body hrt_obcs is\n         ")?;
    add_head(op, into)?;
    put(into, b" is\n         begin\n            hrt_value := ")?;
    put_kept(&op.params, into)?;
    put(into, b";\n            hrt_open := true;\n")?;
    put_name(into, b"         end ", &op.name, b";\n")?;
    put(into, WAIT)
}

/// Adds what the body of a task that waits for requests has before its statements.
fn add_waiting(params: &[Param], into: &mut Vec<u8>) -> Result<(), NoMemory>
    ensures { Writes result into.old.items into.new.items (layout (waiting_lines params.now)) }
{
    put(into, b"      task body hrt_thread is\n         ")?;
    put_request(params, into)?;
    put_number(
        into,
        b" : word := ",
        0,
        b";\n      begin\n         loop\n            hrt_obcs.hrt_wait (",
    )?;
    put_request(params, into)?;
    put(into, b");\n")
}

/// Adds what stands in the body of a sporadic unit.
pub(crate) fn add_sporadic(
    alloc: Global,
    op: &OpSig,
    vars: &[Datum],
    block: &Block,
    into: &mut Vec<u8>,
) -> Result<(), NoMemory>
    ensures { Writes result into.old.items into.new.items
        (layout (inner_body (Sporadic 0 0 (signature_of op.now) 0 0 false vars.now (block_of block.now)))) }
{
    add_data(vars, 2, into)?;
    add_object(op, into)?;
    add_waiting(&op.params, into)?;
    print_block(alloc, block, 4, into)?;
    put(into, LAST)
}
