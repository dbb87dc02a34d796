// What a month states, and what follows, a line for each. Page, name and figure go to each function by themselves: a struct of them would
// be made for every line.
ghost use Rattle.std.specs.Prelude.{◌≡◌, [], ◌∷◌, ◌++◌, IfSome, OnOk, string_bytes};
ghost use Rattle.month.specs.Stated.{stated};
ghost use Rattle.month.specs.View.{figures};
ghost use Rattle.monthpage.specs.Lines.{line, text, costs_line, figure_line, bracket_line, units_line};
ghost use Rattle.monthpage.specs.Lines.{cost_lines, energy_lines, sales_lines, amount_lines, month_lines};

use month::{Bracket, Month, Source, Statement, Units};
use std::alloc::AllocError;
use std::fmt::Display;

pub(crate) fn put_month(page: &mut String, month: &Month) -> Result<(), AllocError>
    ensures { OnOk result (string_bytes page.new ≡ string_bytes page.old ++ text (month_lines (figures month.now))) }
{
    let statement = month.statement();
    put_line(page, format_args!("month {}", statement.month))?;
    put_costs(page, statement)?;
    put_energy(page, statement)?;
    put_sales(page, statement)?;
    put_amounts(page, month)
}

#[tactic(auto, unfolding(crate::specs::Lines::line))]
fn put_source<N: Display + Drop>(
    page: &mut String,
    name: N,
    source: &Source,
) -> Result<(), AllocError>
    ensures { OnOk result (IfSome (N.output name) (λ words. string_bytes page.new ≡ string_bytes page.old
        ++ line (costs_line words source.now))) }
{
    let cost = source.cost;
    let taken = source.taken;
    let passed = source.passed;
    writeln!(
        page,
        "{name}: cost {cost}, discount taken {taken}, passed on {passed} (centavos)"
    )
}

/// A line of these words.
#[tactic(auto, unfolding(crate::specs::Lines::line))]
pub(crate) fn put_line<T: Display + Drop>(page: &mut String, words: T) -> Result<(), AllocError>
    ensures { OnOk result (IfSome (T.output words) (λ words. string_bytes page.new ≡ string_bytes page.old
        ++ line (words ∷ []))) }
{
    writeln!(page, "{words}")
}

/// A figure, after its name and before its unit.
#[tactic(auto, unfolding(crate::specs::Lines::line))]
pub(crate) fn put_figure(
    page: &mut String,
    name: &str,
    figure: u64,
    unit: &str,
) -> Result<(), AllocError>
    ensures { OnOk result (string_bytes page.new ≡ string_bytes page.old ++ line (figure_line name.now figure unit.now)) }
{
    writeln!(page, "{name}: {figure} {unit}")
}

#[tactic(auto, unfolding(crate::specs::Lines::line))]
fn put_units(page: &mut String, name: &str, units: u64) -> Result<(), AllocError>
    ensures { OnOk result (string_bytes page.new ≡ string_bytes page.old ++ line (units_line name.now units)) }
{
    writeln!(page, "{name}: {}", Units(units))
}

#[tactic(auto, unfolding(crate::specs::Lines::line))]
fn put_bracket(page: &mut String, number: usize, bracket: &Bracket) -> Result<(), AllocError>
    ensures { OnOk result (string_bytes page.new ≡ string_bytes page.old ++ line (bracket_line number bracket.now)) }
{
    let kwh = bracket.kwh;
    let customers = bracket.customers;
    let percent = bracket.percent;
    writeln!(
        page,
        "lifeline bracket {number}: {kwh} kWh, {customers} customers, {percent} percent"
    )
}

fn put_costs(page: &mut String, statement: &Statement) -> Result<(), AllocError>
    ensures { OnOk result (string_bytes page.new ≡ string_bytes page.old ++ text (cost_lines (stated statement.now))) }
{
    for (i, source) in statement.sources.as_slice().iter().enumerate() {
        put_source(page, format_args!("source {}", i + 1), source)?;
    }
    put_figure(
        page,
        "pilferage recovery P",
        statement.pilferage,
        "centavos",
    )?;
    put_source(page, "transmission", &statement.transmission)
}

fn put_energy(page: &mut String, statement: &Statement) -> Result<(), AllocError>
    ensures { OnOk result (string_bytes page.new ≡ string_bytes page.old ++ text (energy_lines (stated statement.now))) }
{
    let energy = statement.energy;
    let exempt = statement.exempt;
    put_figure(page, "input I", energy.input, "kWh")?;
    put_figure(
        page,
        "sub-transmission and substation loss A",
        energy.substation,
        "kWh",
    )?;
    put_figure(page, "feeder loss F", energy.feeder, "kWh")?;
    put_figure(
        page,
        "input charged no generation X",
        exempt.generation,
        "kWh",
    )?;
    put_figure(
        page,
        "input charged no transmission Y",
        exempt.transmission,
        "kWh",
    )
}

fn put_sales(page: &mut String, statement: &Statement) -> Result<(), AllocError>
    ensures { OnOk result (string_bytes page.new ≡ string_bytes page.old ++ text (sales_lines (stated statement.now))) }
{
    for (i, bracket) in statement.brackets.as_slice().iter().enumerate() {
        put_bracket(page, i + 1, bracket)?;
    }
    let sales = statement.sales;
    put_figure(page, "non-lifeline sales N", sales.nonlifeline, "kWh")?;
    put_figure(page, "full rate R", sales.rate, "units per kWh")?;
    put_figure(
        page,
        "metering charge M",
        sales.metering,
        "units per customer",
    )
}

fn put_amounts(page: &mut String, month: &Month) -> Result<(), AllocError>
    ensures { OnOk result (string_bytes page.new ≡ string_bytes page.old ++ text (amount_lines (figures month.now))) }
{
    put_units(page, "cost of generation G", month.generation_cost())?;
    put_units(page, "cost of transmission T", month.transmission_cost())?;
    put_figure(page, "sales S", month.sales(), "kWh")?;
    put_units(page, "lifeline discount D", month.lifeline_discount())
}
