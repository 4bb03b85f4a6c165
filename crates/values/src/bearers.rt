ghost use Rattle.std.specs.Prelude.{◌≡◌};
ghost use Rattle.values.specs.Bearers.{bearer_in, capability_of};

use crate::types::{BearerFault, Capability, LEAST_BEARER, MOST_BEARER};

/// The capability that the code of an information transfer capability stands for.
impl TryFrom<u8> for Capability {
    type Error = BearerFault;

    ghost try_from_gives = { λ code result. result ≡ capability_of code };

    fn try_from(code: u8) -> Result<Capability, BearerFault> {
        match code {
            0 => Ok(Capability::Speech),
            8 => Ok(Capability::Unrestricted),
            16 => Ok(Capability::Audio),
            _ => Err(BearerFault::Capability(code)),
        }
    }
}

/// What the contents of a bearer capability ask for; how long they are is judged first.
pub fn bearer(contents: &[u8]) -> Result<Capability, BearerFault>
    ensures { result ≡ bearer_in contents.now }
{
    if contents.len() < LEAST_BEARER {
        return Err(BearerFault::TooShort);
    }
    if contents.len() > MOST_BEARER {
        return Err(BearerFault::TooLong);
    }
    Capability::try_from(contents[0] % 32)
}
