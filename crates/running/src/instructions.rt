// Instructions by their place in the guide's appendix C, those that programs here are written with. They are bytes
// and no enum: a program is rows of bytes, in which operands stand between them.
pub const CHAR: u8 = 1;

pub const INT: u8 = 2;

pub const STRING: u8 = 3;

pub const FLOAT: u8 = 4;

pub const SET: u8 = 5;

pub const GET: u8 = 6;

pub const INCREMENT: u8 = 7;

pub const PLUS: u8 = 9;

pub const EQUALS: u8 = 15;

pub const LESSTHAN: u8 = 17;

pub const LOGICALNOT: u8 = 24;

pub const TOINT: u8 = 30;

pub const CONSTRAIN: u8 = 38;

pub const MAP: u8 = 39;

pub const POW: u8 = 40;

pub const DELAYUNTIL: u8 = 44;

pub const MILLIS: u8 = 45;

pub const PINMODE: u8 = 46;

pub const DIGITALWRITE: u8 = 50;

pub const PRINTLN: u8 = 52;

pub const OPEN: u8 = 53;

pub const WRITE: u8 = 55;

pub const READINT: u8 = 56;

pub const READCHAR: u8 = 57;

pub const READFLOAT: u8 = 58;

pub const READSTRING: u8 = 59;

pub const IF: u8 = 60;

pub const ELSE: u8 = 61;

pub const ENDIF: u8 = 62;

pub const WHILE: u8 = 63;

pub const ENDWHILE: u8 = 64;

pub const LOOP: u8 = 65;

pub const ENDLOOP: u8 = 66;

pub const STOP: u8 = 67;

pub const FORK: u8 = 68;

pub const WAITUNTILDONE: u8 = 69;
