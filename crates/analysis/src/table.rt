use rt_response::ThreadRow;

/// The rows by priority, greatest first, and the place of each row's thread in the flat design.
#[derive(Drop, Debug)]
pub struct Table {
    pub rows: Vec<ThreadRow>,
    pub thread: Vec<u32>,
}
