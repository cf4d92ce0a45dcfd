/// Why nothing is made of bytes.
#[derive(Drop, Debug)]
pub enum Halt<R> {
    /// For this reason.
    Refused(R),
    /// For want of memory.
    NoMemory,
}
