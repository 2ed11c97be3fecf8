// Transport cases that are hard for methods that send flow along one way at a time: amounts that double, with costs
// that lead astray. The least costs were found by another solver.
use std::process::Abort;
use std::test::Fail;
use transport::case::Case;
use transport::solve;

// Amounts 1, 2, 4 and on, 20 of them, or those in descending order.
fn doubling(falling: bool) -> [u32; 64] {
    let mut amounts = [0; 64];
    for (k, amount) in amounts[..20].iter_mut().enumerate() {
        *amount = if falling { 1 << (19 - k) } else { 1 << k };
    }
    amounts
}

// 20 amounts that are as equal as can be, with the sum of the doubling ones.
fn level() -> [u32; 64] {
    let mut amounts = [0; 64];
    amounts[..20].fill(52_428);
    amounts[0] = 52_443;
    amounts
}

#[derive(Clone, Copy)]
enum Costs {
    // 1,000 × i × j.
    Product,
    // 2 to the power of i + j.
    SumPower,
    // 2 to the power of the larger of i and j.
    LargerPower,
    // 2 to the power of i less j, 1 where j is larger.
    RisePower,
    // 2 to the power of how far apart i and j are.
    ApartPower,
    // A number with no plain pattern.
    Mixed,
}

// A power of 2, at most 4,000,000.
fn power(k: u32) -> u32 {
    if k < 22 { 1 << k } else { 4_000_000 }
}

impl Costs {
    fn between(self, i: u32, j: u32) -> u32 {
        let i = i % 64;
        let j = j % 64;
        match self {
            Costs::Product => 1_000 * i * j,
            Costs::SumPower => power(i + j),
            Costs::LargerPower => power(i.max(j)),
            Costs::RisePower => power(i.saturating_sub(j)),
            Costs::ApartPower => power(i.abs_diff(j)),
            Costs::Mixed => (7_919 * i + 104_729 * j + 31_337 * i * j) % 4_000_001,
        }
    }
}

fn case_of(count: usize, supply: [u32; 64], demand: [u32; 64], costs: Costs) -> Case {
    let mut case = Case {
        sources: count,
        sinks: count,
        supply,
        demand,
        cost: [0; 4096],
    };
    for (i, row) in case.cost.chunks_exact_mut(64).take(32).enumerate() {
        for (j, cost) in row.iter_mut().take(32).enumerate() {
            *cost = costs.between(i as u32, j as u32);
        }
    }
    case
}

// The cost of the plan, and how many phases it took.
fn solved(case: &Case) -> Result<(u128, u32), Fail> {
    let plan = solve(case).ok_or("absent")?;
    let mut cost: u128 = 0;
    for (flow, fee) in plan.flow.iter().zip(&case.cost) {
        cost = cost.saturating_add(u128::from(*flow) * u128::from(*fee));
    }
    Ok((cost, plan.phases))
}

fn costs_least(rt: &impl Abort, case: &Case, least: u128) -> Result<(), Fail> {
    let (cost, phases) = solved(case)?;
    assert_eq!(rt; cost, least);
    assert!(rt; phases <= 2_000);
    Ok(())
}

#[test]
fn doubling_amounts_on_both_sides(rt: HostRuntime) -> Result<(), Fail> {
    let rising = doubling(false);
    let falling = doubling(true);
    costs_least(
        &rt,
        &case_of(20, rising, falling, Costs::Product),
        16_777_260_000,
    )?;
    costs_least(
        &rt,
        &case_of(20, rising, falling, Costs::SumPower),
        549_737_394_176,
    )?;
    costs_least(
        &rt,
        &case_of(20, rising, rising, Costs::LargerPower),
        366_503_875_925,
    )?;
    costs_least(
        &rt,
        &case_of(20, rising, rising, Costs::RisePower),
        1_048_575,
    )?;
    costs_least(
        &rt,
        &case_of(20, rising, falling, Costs::ApartPower),
        183_252_462_250,
    )?;
    costs_least(
        &rt,
        &case_of(20, rising, falling, Costs::Mixed),
        724_574_174_598,
    )
}

#[test]
fn doubling_amounts_on_one_side(rt: HostRuntime) -> Result<(), Fail> {
    let rising = doubling(false);
    costs_least(
        &rt,
        &case_of(20, rising, level(), Costs::Product),
        172_344_125_000,
    )?;
    costs_least(
        &rt,
        &case_of(20, rising, level(), Costs::SumPower),
        3_083_783_554_624,
    )?;
    costs_least(
        &rt,
        &case_of(20, rising, level(), Costs::ApartPower),
        5_969_162_377,
    )?;
    costs_least(
        &rt,
        &case_of(20, level(), rising, Costs::Product),
        172_344_125_000,
    )?;
    costs_least(
        &rt,
        &case_of(20, level(), rising, Costs::Mixed),
        1_443_640_300_873,
    )
}

#[test]
fn full_amounts_on_32_each(rt: HostRuntime) -> Result<(), Fail> {
    let full = [1_000_000; 64];
    costs_least(
        &rt,
        &case_of(32, full, full, Costs::Product),
        4_960_000_000_000,
    )?;
    costs_least(
        &rt,
        &case_of(32, full, full, Costs::SumPower),
        56_980_736_000_000,
    )?;
    costs_least(
        &rt,
        &case_of(32, full, full, Costs::LargerPower),
        44_194_303_000_000,
    )?;
    costs_least(
        &rt,
        &case_of(32, full, full, Costs::Mixed),
        5_326_988_000_000,
    )
}
