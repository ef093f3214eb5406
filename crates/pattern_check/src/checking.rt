// The check of a pattern or a panel: the first jack at fault decides.
ghost use Rattle.std.specs.Prelude.{◌≡◌, true, false, ◌≤◌, length, IfOk};
ghost use Rattle.words.specs.Told.{accepted};
ghost use Rattle.words.specs.Meaning.{answer_told, outcome_told};
ghost use Rattle.listing.specs.Limits.{most_ports};
ghost use Rattle.pattern_inverse.specs.Judged.{TakenIn};
ghost use Rattle.pattern_check.specs.Faults.{fault_of};
ghost use Rattle.pattern_check.specs.Calls.{in_size, sized, check_as};
ghost use Rattle.pattern_check.specs.Answers.{fault_is};

use crate::answers::Fault;
use pattern_inverse::invert;
use pattern_inverse::types::Taken;
use words::limits::{LONGEST, SHORTEST};
use words::refusals::nowhere;
use words::{Jack, Reason, Refusal};

// The first fault of p: as a pattern, or as a panel, where a port may stand at its own jack.
pub fn fault(p: &[u8], pattern: bool) -> Result<(), Fault>
    requires { length p.now ≤ most_ports }
    ensures { fault_is result ≡ fault_of pattern p.now }
{
    let n = p.len();
    let mut found = Ok(());
    'jacks: for at in 0..n {
        let next = at + 1;
        let jack = Jack(next as u8);
        let port = p[at] as usize;
        if port < 1 || n < port {
            found = Err(Fault::Outside(jack));
            break 'jacks;
        }
        for k in 0..at {
            if p[k] == p[at] {
                found = Err(Fault::Repeated(jack, Jack((k + 1) as u8)));
                break 'jacks;
            }
        }
        if pattern && port == next {
            found = Err(Fault::OwnJack(jack));
            break 'jacks;
        }
    }
    found
}

// Whether so many ports are 2 to 20.
pub fn in_size(ports: usize) -> bool
    ensures { result ≡ in_size most_ports ports }
{
    SHORTEST <= ports && ports <= LONGEST
}

// The refusal of any other number of ports.
pub fn sized(ports: usize) -> Result<(), Refusal>
    ensures { outcome_told result ≡ sized most_ports ports (accepted tt) }
{
    if in_size(ports) {
        Ok(())
    } else {
        Err(nowhere(Reason::Ports))
    }
}

// A pattern of 2 to 20 ports is taken in. One pass accepts, and what it does not accept the first fault refuses.
pub fn check_inverse(p: &[u8]) -> Result<Taken, Refusal>
    ensures answer { answer_told (λ t. tt {0}) result ≡ check_as true most_ports p.now }
    ensures taken { IfOk result (λ t. TakenIn p.now t) }
{
    sized(p.len())?;
    match invert(p) {
        Some(taken) => Ok(taken),
        None => Err(Refusal::from(fault(p, true).unwrap_err())),
    }
}

// Whether p is a pattern of 2 to 20 ports.
pub fn check(p: &[u8]) -> Result<(), Refusal>
    ensures { outcome_told result ≡ check_as true most_ports p.now }
{
    check_inverse(p)?;
    Ok(())
}

// Whether p is a panel of 2 to 20 ports: a permutation, in which a port may stand at its own jack.
pub fn check_panel(p: &[u8]) -> Result<(), Refusal>
    ensures { outcome_told result ≡ check_as false most_ports p.now }
{
    sized(p.len())?;
    Ok(fault(p, false)?)
}
