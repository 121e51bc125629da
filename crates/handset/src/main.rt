// The handset: a line of standard input at a time, with its reply on standard output before the next is read.
#![tactic(auto)]

ghost use Rattle.std.specs.Prelude.{◌≡◌};
ghost use Rattle.console.specs.Consoles.{network_in};
ghost use Rattle.console.specs.Replies.{after_line};

use anyhow::anyhow;
use console::Console;
use console::lines::LineBuffer;
use std::io::{Read, Write};

// The longest reply has room.
const REPLY_ROOM: usize = 64;

// Hands a line to the console, and writes the reply.
fn answer(console: &mut Console, line: &[u8], out: &mut impl Write) -> anyhow::Result<()>
    ensures { network_in console.new ≡ after_line line.now (network_in console.old) }
{
    let mut reply = [0; REPLY_ROOM];
    let len = console
        .answer(line, &mut reply)
        .map_err(|_| anyhow!("a reply has no room"))?;
    out.write_all(&reply[..len])?;
    Ok(())
}

// Answers every line of the input.
fn run(rt: &HostRuntime) -> anyhow::Result<()> {
    let mut console = Console::new();
    let mut out = rt.stdout();
    let mut lines = LineBuffer::new();
    for byte in rt.stdin().bytes() {
        if let Some(line) = lines.accept(byte?) {
            answer(&mut console, line.as_slice(), &mut out)?;
        }
    }
    if let Some(line) = lines.finish() {
        answer(&mut console, line.as_slice(), &mut out)?;
    }
    Ok(())
}

fn main(rt: HostRuntime) -> anyhow::Result<()> {
    run(&rt)
}
