// A little bank over one store: a table of accounts, and lines of accounts to which a payout is due.
#![tactic(auto)]

mod bank;
mod teller;
mod tells;

use anyhow::Result;
use teller::Teller;
use tells::tells;

fn main(rt: HostRuntime) -> Result<()> {
    let mut teller = Teller::open(rt.alloc())?;
    opens_and_pays(&rt, &mut teller)?;
    pays_urgent_first(&rt, &mut teller)
}

fn opens_and_pays(rt: &impl Print, teller: &mut Teller) -> Result<()> {
    let came = teller.opens(1, 100)?;
    tells(rt, "open account 1 with 100", &came, teller.footprint())?;
    for _ in 0..2 {
        let came = teller.pays()?;
        tells(rt, "pay the next account", &came, teller.footprint())?;
    }
    let came = teller.opens(2, 40)?;
    tells(rt, "open account 2 with 40", &came, teller.footprint())?;
    let came = teller.pays()?;
    tells(rt, "pay the next account", &came, teller.footprint())
}

fn pays_urgent_first(rt: &impl Print, teller: &mut Teller) -> Result<()> {
    pays_urgent_or_next(rt, teller)?;
    let came = teller.puts_in_line(2);
    tells(rt, "put 2 in the line", &came, teller.footprint())?;
    pays_urgent_or_next(rt, teller)?;
    let came = teller.puts_in_both_lines(1, 2)?;
    tells(
        rt,
        "put 1 in the urgent line and 2 in the line",
        &came,
        teller.footprint(),
    )?;
    pays_urgent_or_next(rt, teller)?;
    for account in 1..3 {
        tells_balance(rt, teller, account)?;
    }
    pays_urgent_or_next(rt, teller)?;
    tells_balance(rt, teller, 2)?;
    let came = teller.counts_payouts();
    tells(rt, "payouts made", &came, teller.footprint())
}

fn pays_urgent_or_next(rt: &impl Print, teller: &mut Teller) -> Result<()> {
    let came = teller.pays_urgent_first()?;
    tells(
        rt,
        "pay an urgent account or else the next",
        &came,
        teller.footprint(),
    )
}

fn tells_balance(rt: &impl Print, teller: &mut Teller, account: u32) -> Result<()> {
    print!(rt; "balance of {account}")?;
    let came = teller.finds_balance(account);
    tells(rt, "", &came, teller.footprint())
}
