//! The characters and limits of a message (HL7 v2.5.1, chapter 2).

ghost use Rattle.std.specs.Prelude.{◌≡◌};
ghost use Rattle.fixed_numbers.specs.declared.message.TheConstants.{CARRIAGE_RETURN, LINE_FEED, QUOTATION_MARK, HEXADECIMAL, MAX_SEGMENTS, PATH_NUMBER_MAX, CONTROL_ID_FIELD, CONTROL_ID_MAX, LAST_MOMENT};

/// The carriage return, which ends a segment (HL7 v2.5.1, 2.5.4), and has to follow the end block character (MLLP Release 1,
/// block format: `<CR>`).
pub const CARRIAGE_RETURN: u8 = b'\r';

/// The line feed, of which one is dropped behind a carriage return.
pub const LINE_FEED: u8 = b'\n';

/// The quotation mark, of which two are the null value (HL7 v2.5.1, 2.5.3).
pub const QUOTATION_MARK: u8 = b'"';

/// The letter of an escape sequence that gives bytes in hexadecimal digits (HL7 v2.5.1, 2.7).
pub const HEXADECIMAL: u8 = b'X';

/// The most segments of a message: a limit of this engine.
pub const MAX_SEGMENTS: usize = 4096;

/// The greatest number that a path may name, of a field or of a part of one: a limit of this engine.
pub const PATH_NUMBER_MAX: u32 = 999;

/// The field of the header with the message control id (HL7 v2.5.1, 2.15.9.10), which no step may write.
pub const CONTROL_ID_FIELD: u32 = 10;

/// The most bytes of a message control id, MSH-10: a limit of this engine.
pub const CONTROL_ID_MAX: usize = 199;

/// The last moment, the last second of the year 9998 (UTC), in seconds since 1970 began: a limit of this engine.
pub const LAST_MOMENT: u64 = 253_370_764_799;

/// Which numbers they are.
pub fn message_numbers()
    ensures carriage_return { CARRIAGE_RETURN ≡ 13 }
    ensures line_feed { LINE_FEED ≡ 10 }
    ensures quotation_mark { QUOTATION_MARK ≡ 34 }
    ensures hexadecimal { HEXADECIMAL ≡ 88 }
    ensures segments { MAX_SEGMENTS ≡ 4096 }
    ensures path_number { PATH_NUMBER_MAX ≡ 999 }
    ensures control_id_field { CONTROL_ID_FIELD ≡ 10 }
    ensures control_id { CONTROL_ID_MAX ≡ 199 }
    ensures last_moment { LAST_MOMENT ≡ 253370764799 }
{}
