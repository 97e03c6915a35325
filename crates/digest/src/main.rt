// The program `digest`: prints the digest of standard input in lower-case hexadecimal, over SHACAL-1 with the argument
// 1, over SHACAL-2 with 2 or with none, over the practice cipher with P. What it cannot do it says in one line on
// standard error, and it then ends with status 1. It keeps one piece of the input at a time.
#![tactic(auto)]

use anyhow::anyhow;
use cipher::Cipher;
use digest_text::{Choice, UnknownChoice, line};
use hash::Message;
use practice::Practice;
use shacal1::Shacal1;
use shacal2::Shacal2;
use std::env;
use std::io::{Read, Write};
use std::process::ExitCode;
use words::Block;

// How many bytes are read at once.
const PIECE: usize = 65_536;

// Adds all that can be read. It ends: each turn adds a byte or more, up to the limit.
fn feed<C: Cipher, R: Read>(
    message: &mut Message<'_, C>,
    from: &mut R,
    piece: &mut [u8],
) -> anyhow::Result<()> {
    loop {
        let got = from.read(piece)?;
        if got == 0 {
            return Ok(());
        }
        message
            .add(&piece[0..got])
            .map_err(|_| anyhow!("the input is longer than 16777216 bytes"))?;
    }
}

// The message is finished whether or not all could be read. That `hash::digest_of` has the same shape has its reason there.
fn hashed<C: Cipher, R: Read>(cipher: &C, from: &mut R, piece: &mut [u8]) -> anyhow::Result<Block> {
    let mut message = Message::new(cipher);
    let fed = feed(&mut message, from, piece);
    let digest = message.finish();
    fed?;
    Ok(digest)
}

// The hash that the arguments name: the first behind the program's name, or SHA-256.
fn chosen(rt: &HostRuntime) -> anyhow::Result<Choice> {
    let mut arguments = env::args(rt)?;
    let _ = arguments.next();
    let Some(first) = arguments.next() else {
        return Ok(Choice::Sha256);
    };
    let choice = first.as_str().parse()?;
    if arguments.next().is_some() {
        return Err(UnknownChoice.into());
    }
    Ok(choice)
}

fn run(rt: &HostRuntime) -> anyhow::Result<()> {
    let hash = chosen(rt)?;
    let mut piece = vec![in rt.alloc(); 0u8; PIECE]?;
    let mut input = rt.stdin();
    let digest = match hash {
        Choice::Sha1 => hashed(&Shacal1, &mut input, &mut piece)?,
        Choice::Sha256 => hashed(&Shacal2, &mut input, &mut piece)?,
        Choice::Practice => hashed(&Practice, &mut input, &mut piece)?,
    };
    let text = line(rt.alloc(), &digest)?;
    let mut out = rt.stdout();
    out.write_all(text.as_bytes())?;
    out.flush()?;
    Ok(())
}

// An error that `main` handed out would be printed a second time.
fn main(rt: HostRuntime) -> ExitCode {
    match run(&rt) {
        Ok(()) => ExitCode::SUCCESS,
        Err(fault) => {
            let _ = eprintln!(rt; "digest: {fault}");
            ExitCode::FAILURE
        }
    }
}
