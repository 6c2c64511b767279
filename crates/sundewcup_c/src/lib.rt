// The export of `sundewcup` for C, with the clauses of the function that it calls: a static library exports the functions of its own crate
// alone. The archive is libsundewcup.a, its header include/sundewcup.h.

#![tactic(auto)]

ghost use Rattle.std.specs.Prelude.{◌≡◌, length};
ghost use Rattle.counting.specs.Counted.{number_in};
ghost use Rattle.sundewcup.specs.Running.{ran, ran_into};

#[unsafe(no_mangle)]
pub extern "C" fn sundewcup_run(table: &[u8], events: &[u8], out: &mut [i64]) -> usize
    ensures value { result ≡ number_in (ran (length out.old) table.now events.now) }
    ensures out_after { out.new ≡ ran_into out.old table.now events.now }
{
    sundewcup::sundewcup_run(table, events, out)
}
