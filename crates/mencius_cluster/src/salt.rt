ghost use Rattle.std.specs.Prelude.{◌≡◌};
ghost use Rattle.std.proofs.Common.{rules};
ghost use Rattle.std.specs.Cmp.Rules.{hashing};
ghost use Rattle.std.specs.Hash as fed;
ghost use Rattle.mencius_cluster.specs.Salt.{identity_word, salt_after, hasher_with};

use mencius_base::{Command, CommandId};
use std::hash::{BuildHasher, DefaultHasher, Hash, Hasher};

// The number of different numbers that a client can give to its commands.
const NUMBER_COUNT: u64 = 1 << 32;

// Returns an identity as one word. Hashing this word takes a third of the instructions of hashing two numbers.
fn identity_word(id: CommandId) -> u64
    ensures { result ≡ identity_word id }
{
    u64::from(id.client) * NUMBER_COUNT + u64::from(id.number)
}

/// An identity that is hashed as one word.
#[derive(Clone, Copy, PartialEq, Eq)]
pub struct Identity {
    /// The identity.
    pub id: CommandId,
}

impl Hash for Identity {
    ghost hash_input = { λ x. fed.u64 (identity_word x.id) };

    ghost respects_eq = { Prim.search (hashing, rules) };

    fn hash<H: Hasher>(&self, state: &mut H) {
        state.write_u64(identity_word(self.id));
    }
}

/// Returns a salt for a cluster that will take these commands. It is the SipHash of another salt, such as 0, followed
/// by the identities of the commands, in order.
///
/// The result changes with each identity. So an attacker who chooses identities that share a place under one salt has
/// changed the salt by choosing them.
pub fn salt_after(salt: u64, commands: &[Command]) -> u64
    ensures { result ≡ salt_after salt commands.now }
{
    let mut hasher = DefaultHasher::new();
    hasher.write_u64(salt);
    for command in commands {
        hasher.write_u64(identity_word(command.id()));
    }
    hasher.finish()
}

/// Builds SipHash hashers that have already hashed a salt.
#[derive(Clone, Copy)]
pub struct BuildSaltedHasher {
    // This hasher has already hashed the salt.
    first: DefaultHasher,
}

impl BuildSaltedHasher {
    /// Makes a builder with this salt. All bits of the salt affect which keys of a map share a place.
    pub fn new(salt: u64) -> BuildSaltedHasher
        ensures { result.first ≡ hasher_with salt }
    {
        let mut first = DefaultHasher::new();
        first.write_u64(salt);
        BuildSaltedHasher { first }
    }
}

impl BuildHasher for BuildSaltedHasher {
    type Hasher = DefaultHasher;

    ghost build_hasher = { λ builder. builder.first };

    fn build_hasher(&self) -> DefaultHasher {
        self.first
    }
}
