// One record, stored from a place on. Each function answers where the next record goes.
ghost use Rattle.std.specs.Prelude.{◌+◌, ◌≤◌, ◌∷◌, ◌++◌, length};
ghost use Rattle.workfile.specs.Numbers.{bytes};
ghost use Rattle.workfile.specs.Content.{plan_bytes};
ghost use Rattle.writer.specs.Parts.{Laid};

use workfile::Plan;

// The lowest bytes of a number, the lowest first.
fn put_number(file: &mut [u8], at: usize, number: u64, count: usize) -> usize
    requires { (at + count ≤ length file.old) × (count ≤ 8) }
    ensures { Laid file.old at (bytes count number) file.new result }
{
    file[at..at + count].copy_from_slice(&number.to_le_bytes()[..count]);
    at + count
}

// A kind and a number of 8 bytes.
#[tactic(auto, using(crate::proofs::Laying::long_byte, crate::proofs::Laying::long_bytes, crate::proofs::Laying::long))]
pub fn put_one(file: &mut [u8], at: usize, kind: u8, number: u64) -> usize
    requires { at + 9 ≤ length file.old }
    ensures { Laid file.old at (kind ∷ bytes 8 number) file.new result }
{
    file[at] = kind;
    put_number(file, at + 1, number, 8)
}

// A kind, a number of 4 bytes and one of 8.
#[tactic(auto, using(crate::proofs::Laying::long_byte, crate::proofs::Laying::long_bytes, crate::proofs::Laying::long))]
pub fn put_two(file: &mut [u8], at: usize, kind: u8, first: usize, second: u64) -> usize
    requires { at + 13 ≤ length file.old }
    ensures { Laid file.old at (kind ∷ (bytes 4 first ++ bytes 8 second)) file.new result }
{
    file[at] = kind;
    let next = put_number(file, at + 1, first as u64, 4);
    put_number(file, next, second, 8)
}

// P, at the front of the file.
#[tactic(auto, using(crate::proofs::Laying::long_byte, crate::proofs::Laying::long_bytes, crate::proofs::Laying::long))]
pub fn put_plan(file: &mut [u8], plan: Plan) -> usize
    requires { 18 ≤ length file.old }
    ensures { Laid file.old 0 (plan_bytes plan) file.new result }
{
    file[0] = 0x50;
    file[1] = plan.level;
    let next = put_number(file, 2, plan.te, 8);
    put_number(file, next, plan.ae, 8)
}
