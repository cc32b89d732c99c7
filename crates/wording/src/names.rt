// The names of kinds, marks and extensions' ids, the meanings of refusals, and the ending of a plural.
// Kinds, marks, ids and refusals come as the numbers by which rows and answers hold them for C.
ghost use Rattle.std.specs.Prelude.{◌≡◌, ◌≤◌, ◌↔◌, IsSome, length};

// A kind by its number.
pub fn kind(number: usize) -> &'static str {
    match number {
        1 => "scalar",
        2 => "text",
        3 => "number",
        4 => "key",
        5 => "array",
        6 => "object",
        7 => "packed",
        8 => "table",
        9 => "leaf",
        10 => "record",
        11 => "fixed array",
        12 => "dimension",
        13 => "extension",
        _ => "no kind",
    }
}

// A mark by its byte, with its type.
pub fn mark(mark: usize) -> &'static str {
    match (mark % 256) as u8 {
        b'Z' => "Z null",
        b'T' => "T boolean",
        b'F' => "F boolean",
        b'h' => "h half",
        b'd' => "d single",
        b'D' => "D double",
        b'C' => "C char",
        b'B' => "B byte",
        b'S' => "S text",
        b'H' => "H number",
        b'i' => "i int8",
        b'U' => "U uint8",
        b'I' => "I int16",
        b'u' => "u uint16",
        b'l' => "l int32",
        b'm' => "m uint32",
        b'L' => "L int64",
        b'M' => "M uint64",
        _ => "no mark",
    }
}

// The name of an extension's id, if it has one: the bytes of any other are opaque.
pub fn id(id: usize) -> Option<&'static str>
    ensures { IsSome result ↔ (1 ≤ id × id ≤ 10) }
{
    match id {
        1 => Some("epoch_s"),
        2 => Some("epoch_us"),
        3 => Some("epoch_ns"),
        4 => Some("date"),
        5 => Some("time_s"),
        6 => Some("datetime_us"),
        7 => Some("timedelta_us"),
        8 => Some("complex64"),
        9 => Some("complex128"),
        10 => Some("uuid"),
        _ => None,
    }
}

// What a refusal's number means.
pub fn refusal(number: usize) -> &'static str {
    match number {
        1 => "message over the limit of 1,048,576 bytes",
        2 => "message ends too early",
        3 => "byte not allowed here",
        4 => "content wrong (text, number, char, boolean or size of an extension)",
        5 => "over a limit",
        6 => "negative, or 0 or over 8 dimensions",
        7 => "too deep",
        8 => "no row left",
        9 => "bytes after the value",
        10 => "address or name not there",
        11 => "output longer than its room or than 1,048,576",
        12 => "rows don't fit the request",
        13 => "schema form not built",
        _ => "no such number",
    }
}

// What a word ends with where it stands after a number.
pub fn plural(n: usize) -> &'static str
    ensures { (length result.now ≡ 0) ↔ (n ≡ 1) }
{
    if n == 1 { "" } else { "s" }
}
