// The example programs of the guide's appendix A, a row of the guide to a line, and one of document 02.
use running::instructions::*;

// The rows of a program.
pub type Rows = &'static [&'static [u8]];

// A.1: int a = 300; int b = a + 3;
pub const NUMBERS: Rows = &[
    &[INT, 1, 44, SET, b'a'],
    &[GET, b'a', INT, 0, 3, PLUS, SET, b'b'],
];

// A.1
pub const HELLO: Rows = &[&[STRING, b'H', b'e', b'l', b'l', b'o', 0]];

// A.2
pub const PRINTED: Rows = &[
    &[CHAR, b'a', PRINTLN],
    &[INT, 1, 7, PRINTLN],
    &[FLOAT, 66, 246, 230, 102, PRINTLN],
    &[STRING, b't', b'e', b's', b't', 0, PRINTLN],
];

// A.3.2
pub const BRANCH: Rows = &[
    &[INT, 0, 3, SET, b'a'],
    &[GET, b'a', INT, 0, 5, EQUALS],
    &[IF, 7],
    &[STRING, b'T', b'r', b'u', b'e', 0, PRINTLN],
    &[ELSE, 8],
    &[STRING, b'F', b'a', b'l', b's', b'e', 0, PRINTLN],
    &[ENDIF],
    &[STOP],
];

// A.3.3
pub const ENDLESS: Rows = &[
    &[INT, 0, 0, SET, b'i'],
    &[LOOP],
    &[GET, b'i', INCREMENT, SET, b'i'],
    &[GET, b'i', PRINTLN],
    &[ENDLOOP],
];

// A.3.4
pub const COUNTED: Rows = &[
    &[INT, 0, 0, SET, b'i'],
    &[GET, b'i', INT, 0, 5, LESSTHAN],
    &[WHILE, 6, 8],
    &[GET, b'i', INCREMENT, SET, b'i'],
    &[GET, b'i', PRINTLN],
    &[ENDWHILE],
    &[STOP],
];

// A.4. LED_BUILTIN is 13, OUTPUT is 1.
pub const BLINK: Rows = &[
    &[CHAR, 13, SET, b'p'],
    &[CHAR, 1, SET, b'o'],
    &[GET, b'p', CHAR, 1, PINMODE],
    &[LOOP],
    &[GET, b'p', GET, b'o', DIGITALWRITE],
    &[GET, b'o', LOGICALNOT, SET, b'o'],
    &[MILLIS, INT, 1, 244, PLUS],
    &[DELAYUNTIL],
    &[ENDLOOP],
];

// A.4 without its pins: where it would switch the lamp it prints the lamp's state and the time.
pub const BLINK_PRINTED: Rows = &[
    &[CHAR, 1, SET, b'o'],
    &[LOOP],
    &[GET, b'o', TOINT, PRINTLN],
    &[MILLIS, PRINTLN],
    &[GET, b'o', LOGICALNOT, SET, b'o'],
    &[MILLIS, INT, 1, 244, PLUS],
    &[DELAYUNTIL],
    &[ENDLOOP],
];

// A.5
pub const WRITTEN: Rows = &[
    &[STRING, b'n', b'e', b'w', b'_', b'f', b'i', b'l', b'e', 0],
    &[SET, b's'],
    &[GET, b's'],
    &[INT, 0, 20],
    &[OPEN],
    &[STRING, b't', b'e', b'x', b't', b'\n', 0, WRITE],
    &[CHAR, b'a', WRITE],
    &[INT, 98, 99, WRITE],
    &[FLOAT, 61, 204, 204, 205, WRITE],
    &[GET, b's'],
    &[INT, 0, 20],
    &[OPEN],
    &[READSTRING, PRINTLN],
    &[READCHAR, PRINTLN],
    &[READINT, PRINTLN],
    &[READFLOAT, PRINTLN],
    &[STOP],
];

// A.6, with what stands before the letters of its file
fn forking(letters: &'static [u8]) -> [&'static [u8]; 14] {
    [
        &[STRING, b'h', b'e', b'l', b'l', b'o', b',', 0],
        &[PRINTLN],
        &[STRING, b'w', b'o', b'r', b'l', b'd', 0, SET, b's'],
        &[GET, b's'],
        &[INT, 0, 10],
        &[OPEN],
        letters,
        &[GET, b's', WRITE],
        &[CHAR, PRINTLN, WRITE],
        &[CHAR, STOP, WRITE],
        &[GET, b's', FORK],
        &[WAITUNTILDONE],
        &[STRING, b'b', b'y', b'e', 0, PRINTLN],
        &[STOP],
    ]
}

// A.6 as printed
pub fn forked() -> [&'static [u8]; 14] {
    forking(&[])
}

// A.6 with the STRING that its file lacks
pub fn forked_string() -> [&'static [u8]; 14] {
    forking(&[CHAR, STRING, WRITE])
}

// Document 02, Q-3: "Load lamps need CONSTRAIN, MAP and POW." A load of 700 out of 1023 as a lamp's level out of 255,
// that level kept between 50 and 150, and 1.5 squared.
pub const LOAD_LAMPS: Rows = &[
    &[INT, 2, 188],
    &[INT, 0, 0, INT, 3, 255, INT, 0, 0, INT, 0, 255, MAP],
    &[SET, b'l'],
    &[GET, b'l', PRINTLN],
    &[GET, b'l', INT, 0, 50, INT, 0, 150, CONSTRAIN, PRINTLN],
    &[FLOAT, 63, 192, 0, 0, CHAR, 2, POW, PRINTLN],
    &[STOP],
];
