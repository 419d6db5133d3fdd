// Document 01 as definitions. There is no code here.
//
// specs/ in reading order: Filing, what a site has filed; Validity, Cases, Points and Level, from there to the NCC; Line, Refusals and File, the lines and
// the filing that they make; Closing, 14 to 18; Blocks, Record and Calls, opening, line and close; Sheet, Text and Input, the sheet program. specs/Restated
// says what they say in plain words, and proofs/Pins proves that it is the same.

#![tactic(auto)]
