// What the replay prints (document 01, "Call fields"): the lines, the whole text of an input, worked inputs, and laws. There is no code here: crate lines writes
// the lines, and crate transcript the text.
#![tactic(auto)]
