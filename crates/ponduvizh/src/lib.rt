// The calls that a program in another language links (`tools/build ponduvizh`), on numbers and slices. Each does what one public call of the three layers does,
// with an ellipsoid, an oracle or options made for it where that call takes them.
// A slice is a pointer and then its length, an array or a number that is lent a pointer, a bool 0 or 1; nothing that is lent to be written may overlap anything else that is lent.
// Parameters that travel together stay apart, since C passes each by itself; in private functions too, where a struct of what is lent would add to each a promise that its places are kept.
// Each call but the root gives 0 or the refusal's number; what else there is goes through what it is lent.
#![tactic(auto)]

mod ellipsoids;
mod jobs;
mod numeric;
mod run_numbers;
mod runs;
mod scans;
