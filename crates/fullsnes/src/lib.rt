// What is generally known of the console's transfers and HDMA tables, proved of the definitions that the code is proved against. The text of
// Fullsnes, which describes them, was not at hand. Nothing runs here.
#![tactic(auto)]
