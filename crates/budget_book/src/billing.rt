//! Sales are billed, or lost.
ghost use Rattle.std.specs.Prelude.{◌≡◌, false, None, Option, ◌-◌, ◌<◌, ◌≤◌, length, OnOk, IfErr, Some};
ghost use Rattle.std.proofs.Common.{get_or, set};
ghost use Rattle.budget_book.specs.declared.sales.SaleRow.{SaleRow};
ghost use Rattle.budget_book.specs.declared.sales.SaleFault.{SaleFault};
ghost use Rattle.budget_book.specs.declared.sales.SaleState.{SaleState};
ghost use Rattle.budget_book.specs.Book.{forgotten_of};
ghost use Rattle.budget_book.specs.Sales.{billing_fault, in_state, is_held, losing_fault, sale_fault, settled_in, state_in};

use crate::book::Book;
use crate::sales::{SaleFault, SaleState};
use crate::settling::settle_in;

impl Book {
    /// A held sale becomes billed. A billed one stays as it is.
    #[tactic(auto, using(crate::proofs::Standing::sale_fault_is, crate::proofs::Standing::still_missing))]
    pub fn bill(&mut self, sale: u64) -> Result<(), SaleFault>
        ensures ok { OnOk result (sale_fault billing_fault (forgotten_of self.old.campaigns) self.old.sales sale ≡ None) }
        ensures err { IfErr result (λ e. sale_fault billing_fault (forgotten_of self.old.campaigns) self.old.sales sale ≡ Some e) }
        ensures sales { self.new.sales ≡ settled_in SaleState.Billed (forgotten_of self.old.campaigns) self.old.sales sale }
        ensures campaigns { self.new.campaigns ≡ self.old.campaigns }
        ensures sale_room { self.old.sale_room ≤ self.new.sale_room }
        ensures campaign_room { self.old.campaign_room ≤ self.new.campaign_room }
    {
        match self.settle_numbered(sale, SaleState::Billed) {
            Some(SaleState::Held) => Ok(()),
            Some(SaleState::Billed) => Ok(()),
            Some(SaleState::Lost) => Err(SaleFault::WasLost),
            Some(SaleState::Expired) => Err(SaleFault::WasExpired),
            None => Err(self.missing(sale)),
        }
    }

    /// A held sale becomes lost. A lost one stays as it is.
    #[tactic(auto, using(crate::proofs::Standing::sale_fault_is, crate::proofs::Standing::still_missing))]
    pub fn lose(&mut self, sale: u64) -> Result<(), SaleFault>
        ensures ok { OnOk result (sale_fault losing_fault (forgotten_of self.old.campaigns) self.old.sales sale ≡ None) }
        ensures err { IfErr result (λ e. sale_fault losing_fault (forgotten_of self.old.campaigns) self.old.sales sale ≡ Some e) }
        ensures sales { self.new.sales ≡ settled_in SaleState.Lost (forgotten_of self.old.campaigns) self.old.sales sale }
        ensures campaigns { self.new.campaigns ≡ self.old.campaigns }
        ensures sale_room { self.old.sale_room ≤ self.new.sale_room }
        ensures campaign_room { self.old.campaign_room ≤ self.new.campaign_room }
    {
        match self.settle_numbered(sale, SaleState::Lost) {
            Some(SaleState::Held) => Ok(()),
            Some(SaleState::Billed) => Err(SaleFault::WasBilled),
            Some(SaleState::Lost) => Ok(()),
            Some(SaleState::Expired) => Err(SaleFault::WasExpired),
            None => Err(self.missing(sale)),
        }
    }

    // Sale n changes to that state, where it is held. The state that it had, where it is in the list.
    fn settle_numbered(&mut self, sale: u64, state: SaleState) -> Option<SaleState>
        requires { is_held state ≡ false }
        ensures was { result ≡ state_in (forgotten_of self.old.campaigns) self.old.sales sale }
        ensures sales { self.new.sales ≡ settled_in state (forgotten_of self.old.campaigns) self.old.sales sale }
        ensures campaigns { self.new.campaigns ≡ self.old.campaigns }
        ensures sale_room { self.old.sale_room ≤ self.new.sale_room }
        ensures campaign_room { self.old.campaign_room ≤ self.new.campaign_room }
    {
        settle_in(
            &mut self.rows,
            &mut self.accounts,
            self.forgotten,
            sale,
            state,
        )
    }

    // Why there is no sale of that number in the list.
    fn missing(&self, sale: u64) -> SaleFault
        requires { state_in (forgotten_of self.now.campaigns) self.now.sales sale ≡ None }
        ensures { (by : SaleState → Option SaleFault) → Some result ≡ sale_fault by (forgotten_of self.now.campaigns) self.now.sales sale }
    {
        if 1 <= sale && sale <= self.forgotten() {
            SaleFault::Forgotten
        } else {
            SaleFault::NoSuchSale
        }
    }
}
