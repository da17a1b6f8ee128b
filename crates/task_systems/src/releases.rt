// How the jobs of a system come, told by a type, or by a kind at run time.
ghost use Rattle.std.specs.Prelude.{◌≡◌};
ghost use Rattle.jobs.specs.declared.kind.Kind.{Kind};
ghost use Rattle.jobs.specs.declared.kind.Kind.TheVariants.{Sporadic as sporadic_kind, Periodic as periodic_kind};

use jobs::Kind;

pub trait Releases {
    ghost comes: { Self → Kind };

    fn kind(&self) -> Kind
        ensures { result ≡ comes self.now };
}

// At any time, a period or more after one another.
#[derive(Clone, Copy, Debug, Default)]
pub struct SporadicReleases;

impl Releases for SporadicReleases {
    ghost comes = { λ _. sporadic_kind };

    fn kind(&self) -> Kind {
        Kind::Sporadic
    }
}

// As soon as the wait is over, the first after the offset.
#[derive(Clone, Copy, Debug, Default)]
pub struct PeriodicReleases;

impl Releases for PeriodicReleases {
    ghost comes = { λ _. periodic_kind };

    fn kind(&self) -> Kind {
        Kind::Periodic
    }
}

// As the kind says that is given at run time.
impl Releases for Kind {
    ghost comes = { λ k. k };

    fn kind(&self) -> Kind {
        *self
    }
}
