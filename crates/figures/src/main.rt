// Program `figures`: rates, exponents and factors, and what stands on the lines of one table, at opening and between events, all worked out
// by the proved functions. Its input is figures.txt, made into bytes; `stdout` has the figures that were asked for.

#![tactic(auto)]

ghost use Rattle.corridor.specs.View.{Valid};

use corridor::Session;
use numbers::Steps;
use std::io;
use std::io::Read;

mod answers;
mod rates;

// Three keys and ten contracts.
const TABLE_BYTES: usize = 40 + 8 * 3 + 40 * 10;

// The session is handed its next event.
fn next<R: Read>(input: &mut R, s: &mut Session) -> io::Result<()>
    requires { Valid s.old }
    ensures { Valid s.new }
{
    let mut event = [0; 20];
    let size = filling::fill(input, &mut event)?;
    let _ = s.event(&event[..size]);
    Ok(())
}

fn told(out: &impl Print, words: &str, s: &Session, id: u32) -> io::Result<()>
    requires { Valid s.now }
{
    println!(out; "{words}")?;
    answers::report(out, questions::report(s, id))
}

fn opening(out: &impl Print, s: &Session) -> io::Result<()>
    requires { Valid s.now }
{
    told(out, "Spot -2,001, rates 100,000, 100,001, 300,000", s, 4)?;
    told(out, "The same with least price 5,000", s, 5)?;
    told(
        out,
        "P 1,000, half-width 100, y 100,000,000, width share 500,000",
        s,
        1,
    )?;
    told(
        out,
        "P -10, half-width 100, same y, negatives permitted, share 500,000",
        s,
        2,
    )?;
    told(out, "P 30, half-width 30, y 0, width share 900,000", s, 3)
}

fn floors(out: &impl Print, s: &Session) -> io::Result<()>
    requires { Valid s.now }
{
    told(out, "A lower limit of -17 becomes 1", s, 6)?;
    told(out, "A lower limit of exactly 1", s, 8)?;
    told(out, "-17 with negatives permitted", s, 9)?;
    told(out, "Width share 0", s, 10)
}

// No answer has the half-move: it is read off the line of P 30.
fn half_move(out: &impl Print, s: &Session) -> io::Result<()>
    requires { Valid s.now }
{
    println!(out;
        "  half-move at shift share 500,000: {}",
        s.lines[2].terms.halfmove.0
    )
}

fn questions(out: &impl Print, s: &Session) -> io::Result<()>
    requires { Valid s.now }
{
    println!(out; "Questions of the sample: both limits count as inside, and an unknown id is 13")?;
    answers::limits(out, questions::limits(s, 7))?;
    answers::place(out, "949", questions::place(s, 7, Steps(949)))?;
    answers::place(out, "950", questions::place(s, 7, Steps(950)))?;
    answers::place(out, "1050", questions::place(s, 7, Steps(1050)))?;
    answers::place(out, "1051", questions::place(s, 7, Steps(1051)))?;
    answers::limits(out, questions::limits(s, 11))?;
    answers::place(
        out,
        "1000 of an unknown id",
        questions::place(s, 11, Steps(1000)),
    )?;
    answers::report(out, questions::report(s, 11))
}

fn quotes<R: Read>(out: &impl Print, input: &mut R, s: &mut Session) -> io::Result<()>
    requires { Valid s.old }
    ensures { Valid s.new }
{
    next(input, s)?;
    next(input, s)?;
    told(out, "A bid of 1045 at 10 wouldn't press", s, 7)?;
    next(input, s)?;
    told(out, "A bid of 1046 presses", s, 7)
}

fn down_shift<R: Read>(out: &impl Print, input: &mut R, s: &mut Session) -> io::Result<()>
    requires { Valid s.old }
    ensures { Valid s.new }
{
    next(input, s)?;
    told(out, "P 30 after one down shift", s, 3)?;
    told(
        out,
        "The sample too: a shift acts on all lines, and the other side's hold goes on",
        s,
        7,
    )
}

fn up_shift<R: Read>(out: &impl Print, input: &mut R, s: &mut Session) -> io::Result<()>
    requires { Valid s.old }
{
    next(input, s)?;
    told(
        out,
        "The sample after an up shift: no hold exists any more",
        s,
        7,
    )?;
    next(input, s)?;
    next(input, s)?;
    told(
        out,
        "Event at session end: accepted. One second later: 10",
        s,
        7,
    )
}

fn lines<R: Read>(out: &impl Print, input: &mut R, s: &mut Session) -> io::Result<()>
    requires { Valid s.old }
{
    opening(out, s)?;
    half_move(out, s)?;
    floors(out, s)?;
    questions(out, s)?;
    quotes(out, input, s)?;
    down_shift(out, input, s)?;
    up_shift(out, input, s)
}

fn main(rt: HostRuntime) -> io::Result<()> {
    rates::say(&rt)?;
    let mut input = rt.stdin();
    let mut table = [0; TABLE_BYTES];
    let size = filling::fill(&mut input, &mut table)?;
    match corridor::open(&table[..size]) {
        Err(_) => println!(rt; "The table is refused"),
        Ok(mut session) => lines(&rt, &mut input, &mut session),
    }
}
