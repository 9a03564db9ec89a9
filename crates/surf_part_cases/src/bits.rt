//! A sieve of width 2 at work, and sets that reach past the first word.

use surf_base::NoMemory;
use surf_bits::{Bits, Sieve, Signature};

#[test]
fn sieve_tells_sums(rt: HostRuntime) -> Result<(), NoMemory> {
    let mut sieve = Sieve::make(rt.alloc(), 2)?;
    assert!(rt; sieve.admit(Bits::over(&[1])));
    assert!(rt; !sieve.spans(Bits::over(&[2])));
    assert!(rt; sieve.admit(Bits::over(&[3])));
    assert!(rt; sieve.spans(Bits::over(&[2])));
    assert!(rt; !sieve.admit(Bits::over(&[2])));
    assert!(rt; !sieve.admit(Bits::over(&[])));
    assert_eq!(rt; sieve.rank(), 2);
    sieve.clear();
    assert_eq!(rt; sieve.rank(), 0);
    Ok(())
}

#[test]
fn sums_have_what_is_in_one(rt: HostRuntime) {
    let mut set = Signature::unit(1023);
    set.add(Signature::unit(64).bits());
    set.add(Bits::over(&[1, 1]));
    for (k, member) in [
        (0, true),
        (1, false),
        (64, false),
        (1022, false),
        (1023, true),
    ] {
        assert_eq!(rt; set.bits().bit(k), member, "at {k}");
    }
    assert!(rt; !Signature::zero().bits().bit(0));
}
