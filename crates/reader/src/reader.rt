// A place in the caller's own text, of which lines and fields are handed out.
ghost use Rattle.std.specs.Prelude.{◌+◌, ◌^◌, ◌<◌, length};

// What is left to read, and the number of the line that comes next. Each line takes a byte at least, so there are numbers for all of them.
#[derive(Drop)]
pub struct Reader<'a> {
    pub rest: &'a [u8],
    pub line: u32,
    ghost numbers: { line + length rest.now < 2 ^ 32 },
}

// The fields of a line that are left to read, and the number of that line.
#[derive(Drop)]
pub struct Fields<'a> {
    pub rest: &'a [u8],
    pub line: u32,
}
