// The rows that are told, as a count of their numbers. For a caller that lends the room there is nothing to refuse: the events of a chunk are
// answered, and the closing rows written.

#![tactic(auto)]

ghost use Rattle.std.specs.Prelude.{◌≡◌, ◌≤◌, length};
ghost use Rattle.rows.specs.Buffer.{written};
ghost use Rattle.corridor.specs.View.{Valid};
ghost use Rattle.feeding.specs.Feeding.{feed_needs, told, left_by};
ghost use Rattle.closing.specs.Closing.{closing_numbers};
ghost use Rattle.counting.specs.Counted.{number_in, most_closing};

use corridor::Session;
use rows::NoRoom;

// How many numbers there are, or would have to fit.
pub fn number_in(answer: Result<usize, NoRoom>) -> usize
    ensures { result ≡ number_in answer }
{
    answer.unwrap_or_else(|refused| refused.needed)
}

// A chunk's answers, for which the room is there; the session becomes the one that the chunk leaves. The answer is how many numbers they have.
pub fn counted(s: &mut Session, chunk: &[u8], numbers: &mut [i64]) -> usize
    requires { Valid s.old × (feed_needs (length chunk.now) ≤ length numbers.old) }
    ensures value { result ≡ length (told s.old chunk.now) }
    ensures session_after { s.new ≡ left_by s.old chunk.now }
    ensures numbers_after { numbers.new ≡ written numbers.old 0 (told s.old chunk.now) }
{
    number_in(feeding::feed(s, chunk, numbers))
}

// The closing rows, for which the room is there; the answer is how many numbers they have.
pub fn closed(s: &Session, numbers: &mut [i64]) -> usize
    requires { Valid s.now × (most_closing ≤ length numbers.old) }
    ensures value { result ≡ length (closing_numbers s.now) }
    ensures numbers_after { numbers.new ≡ written numbers.old 0 (closing_numbers s.now) }
{
    number_in(closing::close(s, numbers))
}
