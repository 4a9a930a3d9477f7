//! The lifetime for which entries are lent, for proofs.
ghost use Rattle.art_c_maps.specs.Loans.{coded_life, is_life};
ghost use base.Fml.{Lft};
ghost use denote.Sharing.{said};

use std::marker::{Model, PhantomData};

/// The lifetime for which a map is lent, where clauses name it. It takes no bytes.
#[derive(Drop)]
pub struct Loan<'a> {
    pub marker: PhantomData<&'a u8>,
    pub ghost life: { Lft } by { coded_life },
}

impl<'a> Model for Loan<'a> {
    ghost also_owns = { λ loan. is_life 'a loan.life };

    ghost also_shares = { λ loan _ κ. said (is_life 'a loan.life) κ };
}
