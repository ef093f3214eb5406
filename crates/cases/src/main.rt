// The cases that a program runs and compares: the paper's 'To run', document 000's table for 4 and 5 ports, the circuits of 2 to 6 ports, the paper's example
// read back. Each line says what was compared; where something is not as expected the line ends in DIFFERS.
#![tactic(auto)]

mod calls;
mod example;
mod rows;
mod says;
mod tables;
mod walks;

fn tables_4_and_5(rt: &impl Print) {
    let four = tables::four();
    let mut pattern_4 = [0u8; 4];
    rows::all_rows(rt, &four, &mut pattern_4, 9);
    let five = tables::five();
    let mut pattern_5 = [0u8; 5];
    rows::all_rows(rt, &five, &mut pattern_5, 44);
}

fn circuits_2_to_4(rt: &impl Print) {
    let mut two = [0u8; 2];
    walks::circuit(rt, &mut two, &mut [0u8; 2], 1);
    let mut three = [0u8; 3];
    walks::circuit(rt, &mut three, &mut [0u8; 3], 2);
    let mut four = [0u8; 4];
    walks::circuit(rt, &mut four, &mut [0u8; 4], 9);
}

fn circuits_5_and_6(rt: &impl Print) {
    let mut five = [0u8; 5];
    walks::circuit(rt, &mut five, &mut [0u8; 5], 44);
    let mut six = [0u8; 6];
    walks::circuit(rt, &mut six, &mut [0u8; 6], 265);
}

fn main(rt: HostRuntime) {
    calls::to_run(&rt);
    tables_4_and_5(&rt);
    circuits_2_to_4(&rt);
    circuits_5_and_6(&rt);
    example::printed_and_read(&rt);
}
