// The numbers that stand at a place of a file.
ghost use Rattle.std.specs.Prelude.{◌≡◌, ◌+◌, ◌≤◌, ◌<◌, length, drop};
ghost use Rattle.workfile.specs.Numbers.{little_endian};

// The number of 4 bytes at `at`.
#[tactic(auto, using(workfile::proofs::Finding::of_four))]
pub fn four_bytes(file: &[u8], at: usize) -> u64
    requires { at + 4 ≤ length file.now }
    ensures { (result ≡ little_endian 4 (drop at file.now)) × (result < 4294967296) }
{
    u32::from_le_bytes([file[at], file[at + 1], file[at + 2], file[at + 3]]) as u64
}

// The number of 8 bytes at `at`.
#[tactic(auto, using(workfile::proofs::Finding::of_eight))]
pub fn eight_bytes(file: &[u8], at: usize) -> u64
    requires { at + 8 ≤ length file.now }
    ensures { result ≡ little_endian 8 (drop at file.now) }
{
    u64::from_le_bytes([
        file[at],
        file[at + 1],
        file[at + 2],
        file[at + 3],
        file[at + 4],
        file[at + 5],
        file[at + 6],
        file[at + 7],
    ])
}
