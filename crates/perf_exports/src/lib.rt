// Encryption and decryption for C to call, so that they can be timed beside C: each is the cipher's meaning on its block.
// C needs a function with a name of its own for each cipher and direction, so these four are not one generic one.
#![tactic(auto)]

ghost use Rattle.std.specs.Prelude.{◌≡◌};
ghost use Rattle.shacal1.specs.Shacal1.{shacal1 as meaningOne};
ghost use Rattle.shacal2.specs.Shacal2.{shacal2 as meaningTwo};

use cipher::Cipher;
use shacal1::Shacal1;
use shacal2::Shacal2;

#[unsafe(no_mangle)]
pub extern "C" fn rattle_shacal1_enc(key: &[u32; 16], block: &mut [u32; 5])
    ensures { block.new ≡ meaningOne.enc key.now block.old }
{
    let _ = Shacal1.encrypt(key, block);
}

#[unsafe(no_mangle)]
pub extern "C" fn rattle_shacal1_dec(key: &[u32; 16], block: &mut [u32; 5])
    ensures { block.new ≡ meaningOne.dec key.now block.old }
{
    let _ = Shacal1.decrypt(key, block);
}

#[unsafe(no_mangle)]
pub extern "C" fn rattle_shacal2_enc(key: &[u32; 16], block: &mut [u32; 8])
    ensures { block.new ≡ meaningTwo.enc key.now block.old }
{
    let _ = Shacal2.encrypt(key, block);
}

#[unsafe(no_mangle)]
pub extern "C" fn rattle_shacal2_dec(key: &[u32; 16], block: &mut [u32; 8])
    ensures { block.new ≡ meaningTwo.dec key.now block.old }
{
    let _ = Shacal2.decrypt(key, block);
}
