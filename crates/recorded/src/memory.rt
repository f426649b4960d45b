// The memory that a block is lent.

// The six lists: each call is handed those that it needs.
#[derive(Drop)]
pub struct LentMemory<'a> {
    pub rcv_records: &'a mut [u32],
    pub rcv_room: &'a mut [u8],
    pub snd_records: &'a mut [u32],
    pub snd_room: &'a mut [u8],
    pub acks: &'a mut [u32],
    pub waiting: &'a mut [u8],
}
