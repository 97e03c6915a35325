// One step of a hash for C to call, so that it can be timed beside C: the block is encrypted and added to what it was.
// It stands apart from the other exports, so that each cipher has one caller, as in a hash, and is compiled into it.
// C needs a function with a name of its own for each cipher, so these two are not one generic one.
#![tactic(auto)]

ghost use Rattle.std.specs.Prelude.{◌≡◌};
ghost use Rattle.words.specs.Steps.{added};
ghost use Rattle.shacal1.specs.Shacal1.{shacal1 as meaningOne};
ghost use Rattle.shacal2.specs.Shacal2.{shacal2 as meaningTwo};

use cipher::Cipher;
use shacal1::Shacal1;
use shacal2::Shacal2;
use words::add_words;

#[unsafe(no_mangle)]
pub extern "C" fn rattle_shacal1_feed(key: &[u32; 16], block: &mut [u32; 5])
    ensures { block.new ≡ added (meaningOne.enc key.now block.old) block.old }
{
    let old = *block;
    let _ = Shacal1.encrypt(key, block);
    let _ = add_words(block, &old);
}

#[unsafe(no_mangle)]
pub extern "C" fn rattle_shacal2_feed(key: &[u32; 16], block: &mut [u32; 8])
    ensures { block.new ≡ added (meaningTwo.enc key.now block.old) block.old }
{
    let old = *block;
    let _ = Shacal2.encrypt(key, block);
    let _ = add_words(block, &old);
}
