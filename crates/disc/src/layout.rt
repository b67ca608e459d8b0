// The disc in numbers; specs/Layout.antt has the sentences of documents 01 and 02.
pub const SHORT_DISC: usize = 1024;

pub const LONG_DISC: usize = 4096;

pub const MAX_FILES: usize = 10;

pub const ENTRY_SIZE: usize = 16;

pub const NAME_SIZE: usize = 12;

pub const MAX_NAME: usize = 11;

pub const COUNT_AT: usize = 160;

pub const DATA_START: usize = 161;
