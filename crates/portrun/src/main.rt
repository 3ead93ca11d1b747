// Opens the port of the table file `table.avb`, reads a call a line on standard input, and prints a line for each. At a
// line of any other form it stops. A refused file gets one line with the refusal's number and place.
#![tactic(auto)]

ghost use Rattle.std.specs.Prelude.{◌≤◌, [], ◌∷◌, ◌≡◌, length, IfOk};
ghost use Rattle.runs.specs.Runs.{going_on, standing};
ghost use Rattle.runs.specs.Led.{stopped, Led, LedOn, Plays};

use inputs::filled;
use runs::Run;
use runs::input::answer_all;
use runs::opened::begin;
use std::fs::File;
use std::io;
use std::io::{Read, Write};

fn stopped(run: Run) -> Run
    ensures { result ≡ stopped run }
{
    Run { live: false, ..run }
}

// Writes a text. Where it cannot be written, the run stops.
fn written(rt: &HostRuntime, run: Run, text: &[u8]) -> Run
    ensures { Led run.port.table (standing run) result }
{
    match rt.stdout().write_all(text) {
        Ok(()) => run,
        Err(_) => stopped(run),
    }
}

// Makes the calls of some bytes, and writes their answers.
fn fed(rt: &HostRuntime, run: Run, s: &[u8]) -> Run
    requires { length s.now ≤ 1024 }
    ensures { Led run.port.table (going_on (standing run) s.now) result }
{
    let mut out = [0u8; 65536];
    let a = answer_all(run, s, &mut out);
    written(rt, a.run, &out[..a.count])
}

// The last line may lack its newline: the input's end ends it.
fn last(rt: &HostRuntime, run: Run) -> Run
    ensures { Led run.port.table (going_on (standing run) (10 ∷ [])) result }
{
    stopped(fed(rt, run, b"\n"))
}

// Reads once, after all answers so far are written.
fn turn(rt: &HostRuntime, run: Run) -> Run
    ensures { LedOn run.port.table (standing run) result }
{
    let mut input = [0u8; 1024];
    match rt.stdin().read(&mut input) {
        Ok(0) => last(rt, run),
        Ok(n) => fed(rt, run, &input[..n]),
        Err(error) => {
            let _ = eprintln!(rt; "portrun: standard input: {error}");
            stopped(run)
        }
    }
}

// A proved loop has to end, and nothing says that the input does: so there are as many turns as no run uses up.
fn calls(rt: &HostRuntime, first: Run) -> Run
    ensures { LedOn first.port.table (standing first) result }
{
    let mut run = first;
    for _ in 0..u64::MAX {
        if !run.live {
            break;
        }
        run = turn(rt, run);
    }
    run
}

// The run of a table file.
fn played(rt: &HostRuntime, file: &[u8]) -> Run
    ensures { Plays file.now result }
{
    let mut out = [0u8; 4096];
    let a = begin(file, &mut out);
    calls(rt, written(rt, a.run, &out[..a.count]))
}

// A table file has at most 399 bytes, so a longer one is refused by what these bytes hold.
fn table(rt: &HostRuntime, into: &mut [u8]) -> io::Result<usize>
    ensures { IfOk result (λ n. n ≤ length into.new) }
{
    let mut file = File::open(rt, "table.avb")?;
    let read = filled(&mut file, into);
    read.outcome?;
    Ok(read.count)
}

fn main(rt: HostRuntime) -> io::Result<()> {
    let mut input = [0u8; 512];
    match table(&rt, &mut input) {
        Ok(n) => {
            played(&rt, &input[..n]);
            Ok(())
        }
        Err(error) => eprintln!(rt; "portrun: table.avb: {error}"),
    }
}
