// Memory to lend.
ghost use Rattle.std.specs.Prelude.{◌≡◌, length};

// Room for any path, or for a line.
pub fn buffer() -> [u8; 4096]
    ensures { 4096 ≡ length result }
{
    [0; 4096]
}

// Room for much output, or for a script.
pub fn large_buffer() -> [u8; 65536]
    ensures { 65536 ≡ length result }
{
    [0; 65536]
}
