// The writer of the working file: it judges the content and the room before it stores anything.
#![tactic(auto)]

mod lists; // lists.rt: the records of a list, and what a list adds up to
pub mod records; // records.rt: one record

ghost use Rattle.std.specs.Prelude.{◌≡◌, ◌+◌, ◌*◌, ◌≤◌, length};
ghost use Rattle.terms.specs.Numbers.{sum};
ghost use Rattle.workfile.specs.Content.{encode, Counts};
ghost use Rattle.workfile.specs.Promises.{plan_with, content_with, WritePromise};
ghost use Rattle.writer.specs.Parts.{Laid, front_bytes, HasRoom};

use terms::Refusal;
use workfile::Plan;

// A content that has a legal file, with the sum of its values.
#[derive(Clone, Copy)]
struct Legal<'a> {
    plan: Plan,
    words: &'a [u64],
    values: &'a [u64],
    errors: &'a [i64],
    total: u64,
    ghost counts: { Counts (content_with plan words.now values.now errors.now) },
    ghost added: { total ≡ sum values.now },
}

impl Legal<'_> {
    // P, and the records W and L; answers where the next goes.
    fn put_front(self, file: &mut [u8]) -> usize
        requires { 18 + 9 * length self.words.now + 9 * length self.values.now ≤ length file.old }
        ensures { Laid file.old 0 (front_bytes self.entry.plan self.entry.words.now self.entry.values.now) file.new result }
    {
        let words_at = records::put_plan(file, self.plan);
        let values_at = lists::put_list(file, words_at, 0x57, self.words);
        lists::put_list(file, values_at, 0x4C, self.values)
    }

    // The whole file, where it has room; answers its length.
    fn put_file(self, file: &mut [u8]) -> usize
        requires { HasRoom (content_with self.plan self.words.now self.values.now self.errors.now) (length file.old) }
        ensures { Laid file.old 0 (encode (content_with self.entry.plan self.entry.words.now self.entry.values.now self.entry.errors.now)) file.new result }
    {
        let errors_at = self.put_front(file);
        let end_at = lists::put_errors(file, errors_at, self.errors);
        records::put_two(file, end_at, 0x5A, self.values.len(), self.total)
    }

    // Its file goes to the buffer, or is refused by 18.
    fn write(self, file: &mut [u8]) -> Result<u64, Refusal>
        ensures { WritePromise self.entry.plan self.entry.words.now self.entry.values.now self.entry.errors.now file.old result file.new }
    {
        let needed = 31
            + 9 * self.words.len()
            + 9 * self.values.len()
            + 13 * lists::count_errors(self.errors);
        if file.len() < needed {
            return Err(Refusal::RoomTooShort(needed as u64));
        }
        Ok(self.put_file(file) as u64)
    }
}

// The file of a content goes to the buffer; 13, then 19, then 18, and a refused call changes nothing.
#[tactic(auto, unfolding(workfile::specs::Promises::write_of), using(crate::proofs::Answers::small_sum, crate::proofs::Answers::its_sum))]
pub fn write(
    level: u8,
    te: u64,
    ae: u64,
    words: &[u64],
    values: &[u64],
    errors: &[i64],
    file: &mut [u8],
) -> Result<u64, Refusal>
    ensures { WritePromise (plan_with level te ae) words.now values.now errors.now file.old result file.new }
{
    if errors.len() != values.len() {
        return Err(Refusal::LengthsDiffer);
    }
    if words.len() > workfile::MOST_WORDS || values.len() > workfile::MOST_FILE_LINES {
        return Err(Refusal::NoLegalFile);
    }
    let Some(total) = lists::add_up(values) else {
        return Err(Refusal::NoLegalFile);
    };
    let legal = Legal {
        plan: Plan { level, te, ae },
        words,
        values,
        errors,
        total,
    };
    legal.write(file)
}
