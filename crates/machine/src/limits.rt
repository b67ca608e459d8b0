// The work area in numbers; specs/Limits.antt has the layout and the sentences of document 01.
pub const AREA_LENGTH: usize = 1056;

pub const NEXT_AT: usize = 407;

pub const ZEROS_AT: usize = 409;

pub const ZEROS_SIZE: usize = 7;

pub const RECORDS_AT: usize = 416;

pub const RECORD_SIZE: usize = 64;

pub const SLOT_COUNT: usize = 10;

pub const STACK_SIZE: usize = 32;

pub const ID_LIMIT: u16 = 32768;

pub const TURN_ROOM: usize = 32;

pub const MAX_SHARE: u8 = 8;

pub const ROUND_ROOM: usize = 2560;
