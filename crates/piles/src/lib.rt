// Tests of images and layers piled up: faults with their depth, power, cuts, sick sectors and unequal sizes.
// What is expected follows from docs/DEVICE.md. There is no code here but the tests.
#![tactic(auto)]

mod single;
mod stacked;
mod tools;
