// A key with its schedule (FIPS 197 5.2) and its two subkeys (SP 800-38B 6.1), made once.
ghost use Rattle.std.specs.Prelude.{◌≡◌};
ghost use Rattle.aes.specs.Keys.{key_of};

use crate::Key;
use crate::cmac_mode::{double, subkey};
use aes_block::expand_key;

impl Key {
    pub fn of(octets: [u8; 16]) -> Key
        ensures { result ≡ key_of octets }
    {
        let schedule = expand_key(octets);
        let subkey1 = subkey(&schedule);
        let subkey2 = double(subkey1);
        Key {
            octets,
            schedule,
            subkey1,
            subkey2,
        }
    }

    pub fn octets(self) -> [u8; 16]
        ensures { result ≡ self.octets }
    {
        self.octets
    }
}
