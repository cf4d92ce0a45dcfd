ghost use Rattle.std.specs.Prelude.{◌≡◌, map};
ghost use Rattle.seq_read.specs.Halts.{Gives};
ghost use Rattle.token_read.specs.Ahead.{ahead};
ghost use Rattle.token_read.specs.Words.{item_token};
ghost use Rattle.token_read.specs.Readers.{phrase_at};
ghost use Rattle.ada_read.specs.FixedTexts.{fixed_tokens, cost_name};

use seq_read::{Halt, phrase};
use seq_tree::Mark;
use token_read::{Item, Tokens};

/// A text that is the same in each program, between what differs.
#[derive(Clone, Copy, Debug)]
pub(crate) enum FixedText {
    /// The text up to the first cost.
    Opening,
    /// What stands between the name of a constant and its value.
    Constant,
    /// The text from the last cost to the name of the program.
    Services,
    /// What stands before the name of a package whose body begins.
    PackageBody,
    /// The declaration of a task, up to its priority.
    TaskHead,
    /// The declaration of a task from its priority to its end.
    TaskEnd,
    /// The text from the beginning of a task's body to its offset.
    TaskBody,
    /// The text from the offset to the period.
    Delay,
    /// What closes a list in parentheses.
    Close,
    /// The text from the last statement of a task to the end of its body.
    TaskLoop,
    /// The declaration of a protected object from its name to its ceiling.
    ObjectHead,
    /// The end of a protected object.
    ObjectEnd,
    /// The beginning of the body of a protected object.
    ObjectBody,
    /// The declaration of a sporadic unit's protected object from its name to its ceiling.
    RequestHead,
    /// The parameter of a request from its name to the end of the declaration.
    RequestParam,
    /// The declaration of that object behind the request.
    Entry,
    /// What stands between the head of an operation and the name by which the object has it.
    Renames,
    /// What stands there in a sporadic unit.
    RequestRenames,
    /// The declaration of a sporadic unit's task from its priority to the unit's separation.
    Separation,
    /// The text from the separation to the jitter.
    Jitter,
    /// The text from the jitter to what says whether requests come from outside.
    External,
    /// The beginning of the body of a sporadic unit's protected object.
    RequestBody,
    /// The body of the request up to the value that it keeps.
    Keep,
    /// The value that a request without a parameter keeps.
    Zero,
    /// The body of the request from that value to its name.
    Opened,
    /// The text from the name of the request to the variable of the task.
    Wait,
    /// The text from that variable to where it is used.
    Waiting,
    /// The main procedure, behind the name that it needs.
    Main,
}

const OPENING: [Item; 37] = [
    Item::Word("pragma"),
    Item::Word("task_dispatching_policy"),
    Item::Sign(Mark::LeftParen),
    Item::Word("fifo_within_priorities"),
    Item::Sign(Mark::RightParen),
    Item::Sign(Mark::Semicolon),
    Item::Word("pragma"),
    Item::Word("locking_policy"),
    Item::Sign(Mark::LeftParen),
    Item::Word("ceiling_locking"),
    Item::Sign(Mark::RightParen),
    Item::Sign(Mark::Semicolon),
    Item::Word("with"),
    Item::Word("ada"),
    Item::Sign(Mark::Dot),
    Item::Word("real_time"),
    Item::Sign(Mark::Semicolon),
    Item::Word("package"),
    Item::Word("hrt"),
    Item::Word("is"),
    Item::Word("type"),
    Item::Word("word"),
    Item::Word("is"),
    Item::Word("mod"),
    Item::Number(2),
    Item::Sign(Mark::StarStar),
    Item::Number(32),
    Item::Sign(Mark::Semicolon),
    Item::Word("subtype"),
    Item::Word("moment"),
    Item::Word("is"),
    Item::Word("ada"),
    Item::Sign(Mark::Dot),
    Item::Word("real_time"),
    Item::Sign(Mark::Dot),
    Item::Word("time"),
    Item::Sign(Mark::Semicolon),
];

const CONSTANT: [Item; 3] = [
    Item::Sign(Mark::Colon),
    Item::Word("constant"),
    Item::Sign(Mark::Becomes),
];

const SERVICES: [Item; 48] = [
    Item::Word("function"),
    Item::Word("epoch"),
    Item::Word("return"),
    Item::Word("moment"),
    Item::Sign(Mark::Semicolon),
    Item::Word("function"),
    Item::Word("after"),
    Item::Sign(Mark::LeftParen),
    Item::Word("start"),
    Item::Sign(Mark::Colon),
    Item::Word("moment"),
    Item::Sign(Mark::Semicolon),
    Item::Word("ticks"),
    Item::Sign(Mark::Colon),
    Item::Word("natural"),
    Item::Sign(Mark::RightParen),
    Item::Word("return"),
    Item::Word("moment"),
    Item::Sign(Mark::Semicolon),
    Item::Word("procedure"),
    Item::Word("work"),
    Item::Sign(Mark::LeftParen),
    Item::Word("ticks"),
    Item::Sign(Mark::Colon),
    Item::Word("positive"),
    Item::Sign(Mark::RightParen),
    Item::Sign(Mark::Semicolon),
    Item::Word("procedure"),
    Item::Word("put"),
    Item::Sign(Mark::LeftParen),
    Item::Word("value"),
    Item::Sign(Mark::Colon),
    Item::Word("word"),
    Item::Sign(Mark::RightParen),
    Item::Sign(Mark::Semicolon),
    Item::Word("procedure"),
    Item::Word("activation_end"),
    Item::Sign(Mark::Semicolon),
    Item::Word("end"),
    Item::Word("hrt"),
    Item::Sign(Mark::Semicolon),
    Item::Word("with"),
    Item::Word("hrt"),
    Item::Sign(Mark::Semicolon),
    Item::Word("use"),
    Item::Word("hrt"),
    Item::Sign(Mark::Semicolon),
    Item::Word("package"),
];

const PACKAGE_BODY: [Item; 2] = [Item::Word("package"), Item::Word("body")];

const TASK_HEAD: [Item; 6] = [
    Item::Word("task"),
    Item::Word("hrt_thread"),
    Item::Word("is"),
    Item::Word("pragma"),
    Item::Word("priority"),
    Item::Sign(Mark::LeftParen),
];

const TASK_END: [Item; 5] = [
    Item::Sign(Mark::RightParen),
    Item::Sign(Mark::Semicolon),
    Item::Word("end"),
    Item::Word("hrt_thread"),
    Item::Sign(Mark::Semicolon),
];

const TASK_BODY: [Item; 18] = [
    Item::Word("task"),
    Item::Word("body"),
    Item::Word("hrt_thread"),
    Item::Word("is"),
    Item::Word("hrt_next"),
    Item::Sign(Mark::Colon),
    Item::Word("hrt"),
    Item::Sign(Mark::Dot),
    Item::Word("moment"),
    Item::Sign(Mark::Becomes),
    Item::Word("hrt"),
    Item::Sign(Mark::Dot),
    Item::Word("after"),
    Item::Sign(Mark::LeftParen),
    Item::Word("hrt"),
    Item::Sign(Mark::Dot),
    Item::Word("epoch"),
    Item::Sign(Mark::Comma),
];

const DELAY: [Item; 16] = [
    Item::Sign(Mark::RightParen),
    Item::Sign(Mark::Semicolon),
    Item::Word("begin"),
    Item::Word("loop"),
    Item::Word("delay"),
    Item::Word("until"),
    Item::Word("hrt_next"),
    Item::Sign(Mark::Semicolon),
    Item::Word("hrt_next"),
    Item::Sign(Mark::Becomes),
    Item::Word("hrt"),
    Item::Sign(Mark::Dot),
    Item::Word("after"),
    Item::Sign(Mark::LeftParen),
    Item::Word("hrt_next"),
    Item::Sign(Mark::Comma),
];

const CLOSE: [Item; 2] = [Item::Sign(Mark::RightParen), Item::Sign(Mark::Semicolon)];

const TASK_LOOP: [Item; 8] = [
    Item::Word("activation_end"),
    Item::Sign(Mark::Semicolon),
    Item::Word("end"),
    Item::Word("loop"),
    Item::Sign(Mark::Semicolon),
    Item::Word("end"),
    Item::Word("hrt_thread"),
    Item::Sign(Mark::Semicolon),
];

const MAIN: [Item; 10] = [
    Item::Sign(Mark::Semicolon),
    Item::Word("procedure"),
    Item::Word("hrt_main"),
    Item::Word("is"),
    Item::Word("begin"),
    Item::Word("null"),
    Item::Sign(Mark::Semicolon),
    Item::Word("end"),
    Item::Word("hrt_main"),
    Item::Sign(Mark::Semicolon),
];

const OBJECT_HEAD: [Item; 5] = [
    Item::Word("hrt_object"),
    Item::Word("is"),
    Item::Word("pragma"),
    Item::Word("priority"),
    Item::Sign(Mark::LeftParen),
];

const OBJECT_END: [Item; 3] = [
    Item::Word("end"),
    Item::Word("hrt_object"),
    Item::Sign(Mark::Semicolon),
];

const OBJECT_BODY: [Item; 4] = [
    Item::Word("protected"),
    Item::Word("body"),
    Item::Word("hrt_object"),
    Item::Word("is"),
];

const REQUEST_HEAD: [Item; 5] = [
    Item::Word("hrt_obcs"),
    Item::Word("is"),
    Item::Word("pragma"),
    Item::Word("priority"),
    Item::Sign(Mark::LeftParen),
];

const REQUEST_PARAM: [Item; 5] = [
    Item::Sign(Mark::Colon),
    Item::Word("in"),
    Item::Word("word"),
    Item::Sign(Mark::RightParen),
    Item::Sign(Mark::Semicolon),
];

const ENTRY: [Item; 25] = [
    Item::Word("entry"),
    Item::Word("hrt_wait"),
    Item::Sign(Mark::LeftParen),
    Item::Word("hrt_request"),
    Item::Sign(Mark::Colon),
    Item::Word("out"),
    Item::Word("word"),
    Item::Sign(Mark::RightParen),
    Item::Sign(Mark::Semicolon),
    Item::Word("private"),
    Item::Word("hrt_value"),
    Item::Sign(Mark::Colon),
    Item::Word("word"),
    Item::Sign(Mark::Becomes),
    Item::Number(0),
    Item::Sign(Mark::Semicolon),
    Item::Word("hrt_open"),
    Item::Sign(Mark::Colon),
    Item::Word("boolean"),
    Item::Sign(Mark::Becomes),
    Item::Word("false"),
    Item::Sign(Mark::Semicolon),
    Item::Word("end"),
    Item::Word("hrt_obcs"),
    Item::Sign(Mark::Semicolon),
];

const RENAMES: [Item; 3] = [
    Item::Word("renames"),
    Item::Word("hrt_object"),
    Item::Sign(Mark::Dot),
];

const REQUEST_RENAMES: [Item; 3] = [
    Item::Word("renames"),
    Item::Word("hrt_obcs"),
    Item::Sign(Mark::Dot),
];

const SEPARATION: [Item; 9] = [
    Item::Sign(Mark::RightParen),
    Item::Sign(Mark::Semicolon),
    Item::Word("end"),
    Item::Word("hrt_thread"),
    Item::Sign(Mark::Semicolon),
    Item::Word("hrt_separation"),
    Item::Sign(Mark::Colon),
    Item::Word("constant"),
    Item::Sign(Mark::Becomes),
];

const JITTER: [Item; 5] = [
    Item::Sign(Mark::Semicolon),
    Item::Word("hrt_jitter"),
    Item::Sign(Mark::Colon),
    Item::Word("constant"),
    Item::Sign(Mark::Becomes),
];

const EXTERNAL: [Item; 6] = [
    Item::Sign(Mark::Semicolon),
    Item::Word("hrt_external"),
    Item::Sign(Mark::Colon),
    Item::Word("constant"),
    Item::Word("boolean"),
    Item::Sign(Mark::Becomes),
];

const REQUEST_BODY: [Item; 4] = [
    Item::Word("protected"),
    Item::Word("body"),
    Item::Word("hrt_obcs"),
    Item::Word("is"),
];

const KEEP: [Item; 4] = [
    Item::Word("is"),
    Item::Word("begin"),
    Item::Word("hrt_value"),
    Item::Sign(Mark::Becomes),
];

const ZERO: [Item; 1] = [Item::Number(0)];

const OPENED: [Item; 6] = [
    Item::Sign(Mark::Semicolon),
    Item::Word("hrt_open"),
    Item::Sign(Mark::Becomes),
    Item::Word("true"),
    Item::Sign(Mark::Semicolon),
    Item::Word("end"),
];

const WAIT: [Item; 31] = [
    Item::Sign(Mark::Semicolon),
    Item::Word("entry"),
    Item::Word("hrt_wait"),
    Item::Sign(Mark::LeftParen),
    Item::Word("hrt_request"),
    Item::Sign(Mark::Colon),
    Item::Word("out"),
    Item::Word("word"),
    Item::Sign(Mark::RightParen),
    Item::Word("when"),
    Item::Word("hrt_open"),
    Item::Word("is"),
    Item::Word("begin"),
    Item::Word("hrt_request"),
    Item::Sign(Mark::Becomes),
    Item::Word("hrt_value"),
    Item::Sign(Mark::Semicolon),
    Item::Word("hrt_open"),
    Item::Sign(Mark::Becomes),
    Item::Word("false"),
    Item::Sign(Mark::Semicolon),
    Item::Word("end"),
    Item::Word("hrt_wait"),
    Item::Sign(Mark::Semicolon),
    Item::Word("end"),
    Item::Word("hrt_obcs"),
    Item::Sign(Mark::Semicolon),
    Item::Word("task"),
    Item::Word("body"),
    Item::Word("hrt_thread"),
    Item::Word("is"),
];

const WAITING: [Item; 11] = [
    Item::Sign(Mark::Colon),
    Item::Word("word"),
    Item::Sign(Mark::Becomes),
    Item::Number(0),
    Item::Sign(Mark::Semicolon),
    Item::Word("begin"),
    Item::Word("loop"),
    Item::Word("hrt_obcs"),
    Item::Sign(Mark::Dot),
    Item::Word("hrt_wait"),
    Item::Sign(Mark::LeftParen),
];

/// The tokens of a fixed text.
#[tactic(auto, unfolding(crate::specs::FixedTexts::fixed_tokens))]
fn items(text: FixedText) -> &'static [Item]
    ensures { map item_token result.now ≡ fixed_tokens text }
{
    match text {
        FixedText::Opening => &OPENING,
        FixedText::Constant => &CONSTANT,
        FixedText::Services => &SERVICES,
        FixedText::PackageBody => &PACKAGE_BODY,
        FixedText::TaskHead => &TASK_HEAD,
        FixedText::TaskEnd => &TASK_END,
        FixedText::TaskBody => &TASK_BODY,
        FixedText::Delay => &DELAY,
        FixedText::Close => &CLOSE,
        FixedText::TaskLoop => &TASK_LOOP,
        FixedText::Main => &MAIN,
        FixedText::ObjectHead => &OBJECT_HEAD,
        FixedText::ObjectEnd => &OBJECT_END,
        FixedText::ObjectBody => &OBJECT_BODY,
        FixedText::RequestHead => &REQUEST_HEAD,
        FixedText::RequestParam => &REQUEST_PARAM,
        FixedText::Entry => &ENTRY,
        FixedText::Renames => &RENAMES,
        FixedText::RequestRenames => &REQUEST_RENAMES,
        FixedText::Separation => &SEPARATION,
        FixedText::Jitter => &JITTER,
        FixedText::External => &EXTERNAL,
        FixedText::RequestBody => &REQUEST_BODY,
        FixedText::Keep => &KEEP,
        FixedText::Zero => &ZERO,
        FixedText::Opened => &OPENED,
        FixedText::Wait => &WAIT,
        FixedText::Waiting => &WAITING,
    }
}

/// The tokens after a fixed text.
pub(crate) fn fixed(tokens: Tokens, text: FixedText) -> Result<Tokens, Halt>
    ensures { Gives (λ r. (tt, ahead r)) result (phrase_at (fixed_tokens text) (ahead tokens.entry)) }
{
    phrase(tokens, items(text))
}

/// A constant of package `hrt` that is the cost of a kind of statement.
#[derive(Clone, Copy, Debug)]
pub(crate) enum CostName {
    Assign,
    Test,
    Turn,
    Call,
    Null,
    Put,
    Finish,
}

/// The name of the constant.
#[tactic(auto, unfolding(crate::specs::FixedTexts::cost_name))]
pub(crate) fn cost_name(cost: CostName) -> &'static [u8]
    ensures { result.now ≡ cost_name cost }
{
    match cost {
        CostName::Assign => b"assign_cost",
        CostName::Test => b"test_cost",
        CostName::Turn => b"turn_cost",
        CostName::Call => b"call_cost",
        CostName::Null => b"null_cost",
        CostName::Put => b"put_cost",
        CostName::Finish => b"finish_cost",
    }
}
