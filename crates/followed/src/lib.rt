// What a listing of moves says of a cycle, who has the bus, where WMADD stands and what work RAM holds, is what the bus did, proved. Nothing runs here.
#![tactic(auto)]
