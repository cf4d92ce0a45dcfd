ghost use Rattle.std.specs.Prelude.{◌≡◌, ◌+◌, ◌*◌, ◌<◌, ◌≤◌, ◌^◌, List, IfOk, IfSome, length, map};
ghost use Rattle.ada_tree.specs.Trees.{unit_of};
ghost use Rattle.ada_tree.specs.Programs.{Unit as UnitTree};
ghost use Rattle.linker.specs.declared.program.LinkedUnits.{LinkedUnits as Linked};
ghost use Rattle.linker.specs.Callees.{body_of};
ghost use Rattle.linker.specs.Programs.{AreLinked, op_part, task_part};
ghost use Rattle.task_runtime.specs.Written.{reserve, thread_of};
ghost use Rattle.task_runtime.specs.Bodies.{first_body};
ghost use Rattle.task_runtime.specs.Reserving.{AreKnown, CalleeFits, HasRoom, InnersFit, IsRoomed, IsWithin, OpFits, TellsEnd, extent_in};
ghost use Rattle.task_runtime.specs.Sounds.{CanWork, IsTaskStart};

use crate::room::room_of;
use crate::thread::{Thread, Timing};
use linker::{Ins, LinkedUnits, OpBody};
use rings::targets_first;
use seq_tree::NoMemory;
use std::alloc::Global;

/// The room for bodies that run one inside another: how many they are at most, and how many slots they have together.
#[derive(Clone, Copy)]
pub struct Room {
    pub bodies: usize,
    pub slots: usize,
}

/// The greater of two in each number.
fn greater(first: Room, second: Room) -> Room
    ensures first { IsWithin first result }
    ensures second { IsWithin second result }
{
    Room {
        bodies: first.bodies.max(second.bodies),
        slots: first.slots.max(second.slots),
    }
}

/// The room of the operation at a place, where it is known.
fn known_at(rooms: &[Option<Room>], place: u32) -> Option<Room>
    ensures { IfSome result (λ room. (c : Linked) → AreKnown c rooms.now → OpFits c room place) }
{
    let place = place as usize;
    if place < rooms.len() {
        rooms[place]
    } else {
        None
    }
}

/// The room that is enough for this one and for the callee of an instruction, where it is a call. None where the callee's isn't known.
fn with_callee(rooms: &[Option<Room>], room: Room, ins: Ins) -> Option<Room>
    ensures within { IfSome result (IsWithin room) }
    ensures callee { IfSome result (λ room. (c : Linked) → AreKnown c rooms.now → CalleeFits c room ins) }
{
    match ins {
        Ins::Call { op, .. } => {
            let callee = known_at(rooms, op)?;
            Some(greater(room, callee))
        }
        _ => Some(room),
    }
}

/// Whether an instruction is the last one of a body.
fn ends_body(ins: Ins) -> bool
    ensures { TellsEnd result ins }
{
    match ins {
        Ins::Return => true,
        Ins::Finish => true,
        _ => false,
    }
}

/// The room that is enough for each call from a place of code on, before the next last instruction of a body. None where that of a callee isn't
/// known.
fn calls_room(code: &LinkedUnits, rooms: &[Option<Room>], start: usize) -> Option<Room>
    requires { AreKnown code.now rooms.now }
    ensures { IfSome result (λ room. InnersFit code.now room start) }
{
    let mut room = Room {
        bodies: 0,
        slots: 0,
    };
    let mut at = start;
    'instructions: while at < code.code.ins.len() {
        let ins = code.code.ins[at];
        if ends_body(ins) {
            return Some(room);
        }
        room = with_callee(rooms, room, ins)?;
        at += 1;
    }
    None
}

/// The room with one more body, which has so many slots. None where no number tells it.
fn with_body(room: Room, slots: usize) -> Option<Room>
    ensures { IfSome result (IsRoomed room slots) }
{
    Some(Room {
        bodies: room.bodies.checked_add(1)?,
        slots: room.slots.checked_add(slots)?,
    })
}

/// How many slots the body of an operation has. None where no number tells it.
fn body_slots(body: OpBody) -> Option<usize>
    ensures { IfSome result (λ n. n ≡ length ((op_part (body_of body.entry)).names) + 194) }
{
    let names = body.op.sig.params.len().checked_add(body.op.locals.len())?;
    let all = names.checked_add(body.vars.len())?;
    all.checked_add(194)
}

/// The room of the operation at a place, by those of the operations that it calls. None where one of these isn't known.
fn op_room(code: &LinkedUnits, rooms: &[Option<Room>], place: usize) -> Option<Room>
    requires linked { (us : List UnitTree) × AreLinked us code.now }
    requires known { AreKnown code.now rooms.now }
    ensures { IfSome result (λ room. OpFits code.now room place) }
{
    if place < code.ops.len() {
        if place < code.starts.len() {
            let body = code.ops[place];
            let calls = calls_room(code, rooms, code.starts[place] as usize)?;
            let slots = body_slots(body)?;
            return with_body(calls, slots);
        }
    }
    None
}

/// The calls of each body, as pairs of the place of an operation and that of one that it calls. Bodies stand in code in the order of their places,
/// those of the operations first. Only the order in which rooms are worked out rests on it.
fn edges_of(alloc: Global, code: &LinkedUnits) -> Result<Vec<(usize, usize)>, NoMemory> {
    let mut edges = Vec::new(alloc);
    let mut place: usize = 0;
    'instructions: for ins in code.code.ins.as_slice() {
        match *ins {
            Ins::Call { op, .. } => edges.push((place, op as usize))?,
            Ins::Return => place = place.saturating_add(1),
            _ => {}
        }
    }
    Ok(edges)
}

/// Puts the room of the operation at a place in the table.
fn put_room(rooms: &mut Vec<Option<Room>>, place: usize, room: Option<Room>)
    ensures { (c : Linked) → AreKnown c rooms.old.items → IfSome room (λ r. OpFits c r place) → AreKnown c rooms.new.items }
{
    if place >= rooms.len() {
        return;
    }
    rooms[place] = room;
}

/// The room of each operation with all that it calls, by their places: callees come first. An operation from which a call leads back to itself
/// has none. The one error is a failed allocation.
pub fn rooms_of(alloc: Global, code: &LinkedUnits) -> Result<Vec<Option<Room>>, NoMemory>
    requires { (us : List UnitTree) × AreLinked us code.now }
    ensures { IfOk result (λ rooms. AreKnown code.now rooms.items) }
{
    let count = code.ops.len();
    let edges = edges_of(alloc, code)?;
    let order = targets_first(alloc, count, edges.as_slice())?;
    let mut rooms = vec![in alloc; None; count]?;
    'ops: for place in order.as_slice() {
        let room = op_room(code, rooms.as_slice(), *place);
        put_room(&mut rooms, *place, room);
    }
    Ok(rooms)
}

/// How many names the block of a task knows: its data and the parameter of its requests. None where no number tells it.
fn own_names(thread: Thread) -> Option<usize>
    ensures { IfSome result (λ n. n ≡ length (task_part (thread_of thread.entry)).names) }
{
    match thread.timing {
        Timing::Periodic { .. } => Some(thread.data.len()),
        Timing::Requested { op, .. } => thread.data.len().checked_add(op.params.len()),
    }
}

/// The room of the block of a task with all that it calls, where those of its callees are known.
fn block_room(
    code: &LinkedUnits,
    rooms: &[Option<Room>],
    thread: Thread,
    start: u32,
) -> Option<Room>
    requires works { CanWork thread }
    requires linked { AreLinked (map unit_of thread.units.now) code.now }
    requires start { IsTaskStart code.now thread start }
    requires known { AreKnown code.now rooms.now }
    ensures { IfSome result (λ room. HasRoom code.now room.bodies room.slots (extent_in (first_body thread.entry start))) }
{
    let calls = calls_room(code, rooms, start as usize)?;
    let names = own_names(thread)?;
    let slots = names.checked_add(194)?;
    with_body(calls, slots)
}

/// The room that is enough whatever calls lead to: each operation of the program is under way at most once.
fn most_room(thread: Thread) -> Room
    ensures slots { result.slots < 2 ^ 63 → reserve thread.entry ≤ result.slots }
    ensures bodies { result.slots < 194 * (result.bodies + 1) }
{
    let slots = match room_of(thread) {
        Some(room) => room,
        None => usize::MAX,
    };
    // Each body has 194 slots at least.
    Room {
        bodies: slots / 194,
        slots,
    }
}

/// The room of a task: that of its block with all that it calls.
pub fn task_room(code: &LinkedUnits, rooms: &[Option<Room>], thread: Thread, start: u32) -> Room
    requires works { CanWork thread }
    requires linked { AreLinked (map unit_of thread.units.now) code.now }
    requires start { IsTaskStart code.now thread start }
    requires known { AreKnown code.now rooms.now }
    ensures { result.slots < 2 ^ 63 → HasRoom code.now result.bodies result.slots (extent_in (first_body thread.entry start)) }
{
    match block_room(code, rooms, thread, start) {
        Some(room) => room,
        None => most_room(thread),
    }
}
