// The own lists of the programs that are evaluated: one rule to a line, each as left count, right count, left words, right words.

// exceptions A and B, no function
pub const SUMS: [u16; 74] = [
    2, 2, 11, 32, 6, 32, // raise(A)->fire(A)
    2, 2, 11, 33, 6, 33, // raise(B)->fire(B)
    4, 6, 12, 64, 32, 65, 8, 9, 64, 64, 32, 65, // handle(x,A,y)->select(isData(x),x,A,y)
    4, 6, 12, 64, 33, 65, 8, 9, 64, 64, 33, 65, // handle(x,B,y)->select(isData(x),x,B,y)
    6, 1, 8, 6, 32, 64, 32, 65, 65, // select(fire(A),x,A,y)->y
    6, 1, 8, 6, 33, 64, 33, 65, 65, // select(fire(B),x,B,y)->y
    6, 2, 8, 6, 32, 64, 33, 65, 6, 32, // select(fire(A),x,B,y)->fire(A)
    6, 2, 8, 6, 33, 64, 32, 65, 6, 33, // select(fire(B),x,A,y)->fire(B)
];

// f(x)->handle(+(raise(A),f(0)),A,succ(0))
pub const FIGURE2: [u16; 102] = [
    2, 2, 11, 32, 6, 32, // raise(A)->fire(A)
    2, 2, 11, 33, 6, 33, // raise(B)->fire(B)
    4, 6, 12, 64, 32, 65, 8, 9, 64, 64, 32, 65, // handle(x,A,y)->select(isData(x),x,A,y)
    4, 6, 12, 64, 33, 65, 8, 9, 64, 64, 33, 65, // handle(x,B,y)->select(isData(x),x,B,y)
    6, 1, 8, 6, 32, 64, 32, 65, 65, // select(fire(A),x,A,y)->y
    6, 1, 8, 6, 33, 64, 33, 65, 65, // select(fire(B),x,B,y)->y
    6, 2, 8, 6, 32, 64, 33, 65, 6, 32, // select(fire(A),x,B,y)->fire(A)
    6, 2, 8, 6, 33, 64, 32, 65, 6, 33, // select(fire(B),x,A,y)->fire(B)
    2, 2, 384, 64, 385, 64, // entry
    2, 5, 385, 64, 7, 9, 64, 386, 64, // argument 1
    2, 9, 386, 64, 12, 256, 11, 32, 384, 1, 32, 2, 1, // own rule
];

// f(x)->handle(if(True,raise(A),f(x)),A,succ(0))
pub const FIGURE5: [u16; 103] = [
    2, 2, 11, 32, 6, 32, // raise(A)->fire(A)
    2, 2, 11, 33, 6, 33, // raise(B)->fire(B)
    4, 6, 12, 64, 32, 65, 8, 9, 64, 64, 32, 65, // handle(x,A,y)->select(isData(x),x,A,y)
    4, 6, 12, 64, 33, 65, 8, 9, 64, 64, 33, 65, // handle(x,B,y)->select(isData(x),x,B,y)
    6, 1, 8, 6, 32, 64, 32, 65, 65, // select(fire(A),x,A,y)->y
    6, 1, 8, 6, 33, 64, 33, 65, 65, // select(fire(B),x,B,y)->y
    6, 2, 8, 6, 32, 64, 33, 65, 6, 32, // select(fire(A),x,B,y)->fire(A)
    6, 2, 8, 6, 33, 64, 32, 65, 6, 33, // select(fire(B),x,A,y)->fire(B)
    2, 2, 384, 64, 385, 64, // entry
    2, 5, 385, 64, 7, 9, 64, 386, 64, // argument 1
    2, 10, 386, 64, 12, 10, 3, 11, 32, 384, 64, 32, 2, 1, // own rule
];

// f(x)->handle(if(False,raise(A),f(x)),A,succ(0))
pub const FIGURE6: [u16; 103] = [
    2, 2, 11, 32, 6, 32, // raise(A)->fire(A)
    2, 2, 11, 33, 6, 33, // raise(B)->fire(B)
    4, 6, 12, 64, 32, 65, 8, 9, 64, 64, 32, 65, // handle(x,A,y)->select(isData(x),x,A,y)
    4, 6, 12, 64, 33, 65, 8, 9, 64, 64, 33, 65, // handle(x,B,y)->select(isData(x),x,B,y)
    6, 1, 8, 6, 32, 64, 32, 65, 65, // select(fire(A),x,A,y)->y
    6, 1, 8, 6, 33, 64, 33, 65, 65, // select(fire(B),x,B,y)->y
    6, 2, 8, 6, 32, 64, 33, 65, 6, 32, // select(fire(A),x,B,y)->fire(A)
    6, 2, 8, 6, 33, 64, 32, 65, 6, 33, // select(fire(B),x,A,y)->fire(B)
    2, 2, 384, 64, 385, 64, // entry
    2, 5, 385, 64, 7, 9, 64, 386, 64, // argument 1
    2, 10, 386, 64, 12, 10, 4, 11, 32, 384, 64, 32, 2, 1, // own rule
];

// f(x)->handle(if(<=(0,succ(0)),raise(A),f(x)),A,succ(0))
pub const FIGURE7: [u16; 106] = [
    2, 2, 11, 32, 6, 32, // raise(A)->fire(A)
    2, 2, 11, 33, 6, 33, // raise(B)->fire(B)
    4, 6, 12, 64, 32, 65, 8, 9, 64, 64, 32, 65, // handle(x,A,y)->select(isData(x),x,A,y)
    4, 6, 12, 64, 33, 65, 8, 9, 64, 64, 33, 65, // handle(x,B,y)->select(isData(x),x,B,y)
    6, 1, 8, 6, 32, 64, 32, 65, 65, // select(fire(A),x,A,y)->y
    6, 1, 8, 6, 33, 64, 33, 65, 65, // select(fire(B),x,B,y)->y
    6, 2, 8, 6, 32, 64, 33, 65, 6, 32, // select(fire(A),x,B,y)->fire(A)
    6, 2, 8, 6, 33, 64, 32, 65, 6, 33, // select(fire(B),x,A,y)->fire(B)
    2, 2, 384, 64, 385, 64, // entry
    2, 5, 385, 64, 7, 9, 64, 386, 64, // argument 1
    2, 13, 386, 64, 12, 10, 280, 1, 2, 1, 11, 32, 384, 64, 32, 2, 1, // own rule
];

// f(0)->succ(0), f(succ(x))->*(succ(x),f(x))
pub const FIGURE8: [u16; 31] = [
    2, 2, 384, 64, 385, 64, // entry
    2, 5, 385, 64, 7, 9, 64, 386, 64, // argument 1
    2, 2, 386, 1, 2, 1, // own rule
    3, 5, 386, 2, 64, 264, 2, 64, 384, 64, // own rule
];

// g(x)->g(x)
pub const ENDLESS: [u16; 21] = [
    2, 2, 384, 64, 385, 64, // entry
    2, 5, 385, 64, 7, 9, 64, 386, 64, // argument 1
    2, 2, 386, 64, 384, 64, // own rule
];
