// Memories for the library's operations.
ghost use Rattle.std.specs.Prelude.{◌≡◌, length};

// Room for the longest file.
pub fn result_room() -> [u8; 262144]
    ensures { 262144 ≡ length result }
{
    [0; 262144]
}

// Work for a run, or for a sort, of any file.
pub fn work_room() -> [u8; 65536]
    ensures { 65536 ≡ length result }
{
    [0; 65536]
}
