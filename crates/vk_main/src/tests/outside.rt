//! Functions of all integer types, and what gcc makes of them (`data/expressions.c`).

// Each row is the function, the words of the call, and the lines of the lanes.

// Results of `signed char` and `unsigned char`.
pub(super) static BYTES: [(&str, &str, &str); 10] = [
    (
        "signed char f0(unsigned char a, unsigned char b) { return ~(~((a << (b & 31)) + (a * b))); }",
        "lanes --isa b f.c _ZGVbN16vv_f0 255,1,2,1,41,0,71,1,144,0,108,0,97,2,33,0 217,0,0,112,0,0,0,0,0,255,1,2,255,0,2,0",
        "lane 0: 39\nlane 1: 1\nlane 2: 2\nlane 3: 112\nlane 4: 41\nlane 5: 0\nlane 6: 71\nlane 7: 1\nlane 8: -112\nlane 9: 0\nlane 10: 68\nlane 11: 0\nlane 12: -97\nlane 13: 2\nlane 14: -58\nlane 15: 0\n",
    ),
    (
        "unsigned char f4(signed char a) { return (unsigned)((a > 07l) * (a | 2u) & 2147483647ll | a); }",
        "lanes --isa b f.c _ZGVbN16v_f4 -- -44,0,127,-64,127,0,-128,127,45,-1,87,46,19,127,102,127",
        "lane 0: 212\nlane 1: 0\nlane 2: 127\nlane 3: 192\nlane 4: 127\nlane 5: 0\nlane 6: 128\nlane 7: 127\nlane 8: 47\nlane 9: 255\nlane 10: 87\nlane 11: 46\nlane 12: 19\nlane 13: 127\nlane 14: 102\nlane 15: 127\n",
    ),
    (
        "signed char f8(int a, int b) { return (a + b) << ((((b >> (36464 & 31)) << ((037777777777l | 0x2UL) & 31)) & (((long)0xffl) - (-b))) & 31); }",
        "lanes --isa b f.c _ZGVbN16vv_f8 -- 1 -1976525469,0,-628190116,-1395674794,476700005,0,1714945845,588467269,0,2147483647,13,2147483647,1,-2147483648,-1,52",
        "lane 0: 100\nlane 1: 1\nlane 2: 93\nlane 3: 87\nlane 4: 102\nlane 5: 1\nlane 6: 54\nlane 7: 70\nlane 8: 1\nlane 9: 0\nlane 10: 14\nlane 11: 0\nlane 12: 2\nlane 13: 1\nlane 14: 0\nlane 15: 53\n",
    ),
    (
        "unsigned char f12(short a, unsigned b) { return a - ((((short)b) >> ((b << (255 & 31)) & 31)) <= b & b + (-b)); }",
        "lanes --isa b f.c _ZGVbN16vv_f12 0,32767,1,1,32767,13976,-32768,21691,-4481,-32768,-5005,-32768,32767,-3401,65,18658 0",
        "lane 0: 0\nlane 1: 255\nlane 2: 1\nlane 3: 1\nlane 4: 255\nlane 5: 152\nlane 6: 0\nlane 7: 187\nlane 8: 127\nlane 9: 0\nlane 10: 115\nlane 11: 0\nlane 12: 255\nlane 13: 183\nlane 14: 65\nlane 15: 226\n",
    ),
    (
        "signed char f16(unsigned long a, short b, unsigned short c) { return ((short)(b - a) + ((b >> (a & 31)) != (+c))) | (((0x1UL > c) * (b - b)) - (a & a) * 0x2ll); }",
        "lanes --isa b f.c _ZGVbN16vvv_f16 7804787777389558488,18446744073709551615,2,0,81,18446744073709551615,91,1,9255319549390328220,0,1,0,0,10070198782492009576,15790897371140425434,0 0,32767,1,-7,96,8528,-7,-1,11,-1,-32768,-32768,-1,1,-32768,-32768 0,41544,75,91,65535,57953,0,65535,65535,0,43593,0,1,0,65025,4",
        "lane 0: 120\nlane 1: 3\nlane 2: -4\nlane 3: -6\nlane 4: 94\nlane 5: 82\nlane 6: -33\nlane 7: -1\nlane 8: -8\nlane 9: 0\nlane 10: -2\nlane 11: 1\nlane 12: 0\nlane 13: -71\nlane 14: 111\nlane 15: 1\n",
    ),
    (
        "unsigned char f20(unsigned long a, long b, signed char c, short d) { return (unsigned)(((short)c) << (((unsigned)d) & 31)) - (~(0400 - a ^ b + d)); }",
        "lanes --isa b f.c _ZGVbN16vvvv_f20 5179439939348102014,0,0,8631722228038264436,2,0,0,18446744073709551615,0,13591064502149422938,14,0,1,18446744073709551615,2,2 1,9223372036854775807,46,0,1,0,-7985746064465593183,67,-1,-1,7667072499759756214,9223372036854775807,9223372036854775807,9223372036854775807,-9223372036854775808,9223372036854775807 0,53,-1,1,-1,1,50,0,1,15,-128,-8,-1,120,127,1 31070,-1,-6790,1,79,-1,1,88,1,32767,81,-16291,1,5675,0,32767",
        "lane 0: 222\nlane 1: 255\nlane 2: 169\nlane 3: 144\nlane 4: 175\nlane 5: 0\nlane 6: 7\nlane 7: 155\nlane 8: 3\nlane 9: 89\nlane 10: 246\nlane 11: 93\nlane 12: 254\nlane 13: 44\nlane 14: 126\nlane 15: 1\n",
    ),
    (
        "signed char f24(short a, unsigned b, unsigned short c) { return (-(0x7 < c) ^ ((b ^ a) | ((unsigned)b))) - (+0x2u - c) | b; }",
        "lanes --isa b f.c _ZGVbN16vvv_f24 9,-1,1,-1,-2121,-1,-1,-32768,0,1,-1,0,1,862,-32768,-17913 11 91,2,64,47,55887,65535,1,42758,65535,43449,26,60108,65535,52,65535,65535",
        "lane 0: 79\nlane 1: -1\nlane 2: 59\nlane 3: 47\nlane 4: -113\nlane 5: -1\nlane 6: -1\nlane 7: -5\nlane 8: -5\nlane 9: -85\nlane 10: 27\nlane 11: -65\nlane 12: -5\nlane 13: -37\nlane 14: -5\nlane 15: -17\n",
    ),
    (
        "unsigned char f28(int a, short b) { return (((unsigned long)0x7fffffffl) * a < a | b + a) * a; }",
        "lanes --isa b f.c _ZGVbN16vv_f28 -- 1,97,91,70,-4,-2147483648,-2147483648,-2057750677,1,-2147483648,46,1953277646,-452741579,-2147483648,0,1552888900 -32768",
        "lane 0: 1\nlane 1: 193\nlane 2: 89\nlane 3: 36\nlane 4: 12\nlane 5: 0\nlane 6: 0\nlane 7: 185\nlane 8: 1\nlane 9: 0\nlane 10: 68\nlane 11: 196\nlane 12: 249\nlane 13: 0\nlane 14: 0\nlane 15: 16\n",
    ),
    (
        "signed char f32(unsigned a, signed char b, int c) { return ((b + (unsigned long)a) << (((c + 0x0u) | (b << (0x7fffffffu & 31))) & 31)) * (!((a != c) & +a)); }",
        "lanes --isa b f.c _ZGVbN16vvv_f32 3784823377,3667875352,0,4294967295,1,15,1,0,4294967295,90,3203653896,0,2,0,4294967295,1751640567 18,0,83,-128,41,0,64,1,-100,10,-128,84,0,-51,-52,0 2147483647,-2147483648,-2147483648,2147483647,1,-1,2147483647,-1,-409494764,-1,-2147483648,40,0,2,-381233133,640300631",
        "lane 0: 0\nlane 1: 24\nlane 2: 83\nlane 3: 0\nlane 4: 84\nlane 5: 0\nlane 6: 0\nlane 7: 0\nlane 8: 0\nlane 9: 0\nlane 10: -120\nlane 11: 0\nlane 12: 2\nlane 13: 52\nlane 14: 0\nlane 15: 0\n",
    ),
    (
        "unsigned char f36(unsigned short a, long b) { return a - (!((signed char)b) == ((b - 02u) >> ((b + a) & 31))); }",
        "lanes --isa b f.c _ZGVbN16vv_f36 -- 16068,75,51896,0,1,0,2,51262,2,0,1,55,22977,12,1,35281 -4,-140607901897276827,-2,37,-558755726525303025,9223372036854775807,-8210428146020513552,9223372036854775807,74,9223372036854775807,9223372036854775807,5259814222550779298,-7172983113677248668,-1,9223372036854775807,-9223372036854775808",
        "lane 0: 196\nlane 1: 75\nlane 2: 184\nlane 3: 0\nlane 4: 1\nlane 5: 0\nlane 6: 2\nlane 7: 62\nlane 8: 1\nlane 9: 0\nlane 10: 1\nlane 11: 55\nlane 12: 193\nlane 13: 12\nlane 14: 1\nlane 15: 209\n",
    ),
];

// Results of `short` and `unsigned short`.
pub(super) static SHORTS: [(&str, &str, &str); 10] = [
    (
        "short f1(int a, signed char b) { return (+((b | 01) + (signed char)a)) >> ((((!b) * b) >> (a & 31)) & 31); }",
        "lanes --isa b f.c _ZGVbN8vv_f1 -- -1,-1695844700,1,-1,35,1,-399809130,-1063974228 1,99,-128,1,66,127,77,-44",
        "lane 0: 0\nlane 1: 7\nlane 2: -126\nlane 3: 0\nlane 4: 102\nlane 5: 128\nlane 6: -29\nlane 7: -127\n",
    ),
    (
        "unsigned short f5(signed char a, short b) { return (((short)((int)a)) >> (((long)a - (b << (a & 31))) & 31)) - ((unsigned)(+a + b - 256l)); }",
        "lanes --isa b f.c _ZGVbN8vv_f5 -- -1,127,-60,-103,-80,0,-103,-128 33,-15077,1,-1,0,12473,-32768,28",
        "lane 0: 223\nlane 1: 15206\nlane 2: 314\nlane 3: 359\nlane 4: 335\nlane 5: 53319\nlane 6: 33126\nlane 7: 348\n",
    ),
    (
        "short f9(long a, unsigned short b, long c, long d) { return (((long)(a ^ a)) >> ((!((int)c)) & 31)) | ((54218 >> (c & 31)) < d & 43861) ^ (short)b & b; }",
        "lanes --isa b f.c _ZGVbN8vvvv_f9 -- -6494300810574501803 1,23502,65036,0,11,1,2,65535 1,76,-9223372036854775808,0,0,-1,1,-8605253905657842014 16,-9223372036854775808,1,-1,-1,1,9223372036854775807,0",
        "lane 0: 1\nlane 1: 23502\nlane 2: -500\nlane 3: 0\nlane 4: 11\nlane 5: 0\nlane 6: 3\nlane 7: -1\n",
    ),
    (
        "unsigned short f13(int a, signed char b) { return ((unsigned short)b) | (b * a & (a ^ b)) - ((unsigned long)a); }",
        "lanes --isa b f.c _ZGVbN8vv_f13 -- -2147483648 4,54,14,1,-88,0,127,127",
        "lane 0: 4\nlane 1: 54\nlane 2: 14\nlane 3: 1\nlane 4: 65448\nlane 5: 0\nlane 6: 127\nlane 7: 127\n",
    ),
    (
        "short f17(unsigned char a, signed char b, int c) { return (long)((signed char)((+c) << ((b >> (c & 31)) & 31))); }",
        "lanes --isa b f.c _ZGVbN8vvv_f17 1,93,2,234,1,19,0,255 89 1,0,75,73,0,-1388527749,-1,1424823972",
        "lane 0: 0\nlane 1: 0\nlane 2: 75\nlane 3: 73\nlane 4: 0\nlane 5: 123\nlane 6: -1\nlane 7: -128\n",
    ),
    (
        "unsigned short f21(unsigned char a, unsigned b) { return ((b & 0400l - ((long)b)) ^ ((b < b) >> ((-b) & 31))) ^ (~((0xff | 0xffll) * (256ll | a))); }",
        "lanes --isa b f.c _ZGVbN8vv_f21 255,1,0,1,2,0,0,179 0,2,48,70,22,4294967295,2,0",
        "lane 0: 766\nlane 1: 2\nlane 2: 239\nlane 3: 2\nlane 4: 65283\nlane 5: 510\nlane 6: 253\nlane 7: 20146\n",
    ),
    (
        "short f25(unsigned short a, short b, unsigned char c, unsigned char d) { return +(((a & b) <= a | c) + (c ^ 0x7fffffff > 0x9af0UL - d)); }",
        "lanes --isa b f.c _ZGVbN8vvvv_f25 77,0,65535,2,1,24474,0,87 0 50,1,255,102,4,0,72,255 2,53,0,0,1,113,255,19",
        "lane 0: 102\nlane 1: 1\nlane 2: 509\nlane 3: 206\nlane 4: 10\nlane 5: 2\nlane 6: 146\nlane 7: 509\n",
    ),
    (
        "unsigned short f29(unsigned char a, int b, unsigned short c) { return (long)((b ^ c) * (2147483647 * a) + ((signed char)c * c * b)); }",
        "lanes --isa b f.c _ZGVbN8vvv_f29 2,15,0,123,2,255,0,255 44,0,93,1468620329,2147483647,-394054981,1080909635,2147483647 1,1,84,0,65535,65535,0,18674",
        "lane 0: 65490\nlane 1: 65521\nlane 2: 848\nlane 3: 49741\nlane 4: 65535\nlane 5: 48127\nlane 6: 0\nlane 7: 42825\n",
    ),
    (
        "short f33(unsigned long a, short b) { return -(((036616035124ll << (b & 31)) ^ (2ll + a)) & (a + b + a * b)); }",
        "lanes --isa b f.c _ZGVbN8vv_f33 0,13712995466073045138,12874688313030516450,2,23,7,18446744073709551615,1 3052,1,-30817,-1,24409,11241,1,-2242",
        "lane 0: 0\nlane 1: -36\nlane 2: -708\nlane 3: -4\nlane 4: -9\nlane 5: -2057\nlane 6: -29865\nlane 7: -1\n",
    ),
    (
        "unsigned short f37(signed char a, signed char b) { return (int)((~a) + !b) ^ ((a + b ^ b) + -((short)b)); }",
        "lanes --isa b f.c _ZGVbN8vv_f37 -- -19,1,1,89,127,46,38,0 0,127,15,-1,-4,-23,-94,87",
        "lane 0: 65534\nlane 1: 65406\nlane 2: 65518\nlane 3: 14\nlane 4: 11\nlane 5: 65476\nlane 6: 65297\nlane 7: 86\n",
    ),
];

// Results of `int` and `unsigned`.
pub(super) static INTS: [(&str, &str, &str); 10] = [
    (
        "int f2(unsigned long a) { return ((+((signed char)0153546)) & a) ^ a; }",
        "lanes --isa b f.c _ZGVbN4v_f2 10839546123309872888,15689470108395665708,0,1",
        "lane 0: -833030504\nlane 1: -318211832\nlane 2: 0\nlane 3: 1\n",
    ),
    (
        "unsigned f6(long a, short b, int c) { return (((c >> (a & 31)) ^ a + b) * ~(b - 00)) >> (((unsigned char)(b << (c & 31)) + -((unsigned)b)) & 31); }",
        "lanes --isa b f.c _ZGVbN4vvv_f6 -- 1,-9223372036854775808,-8,9223372036854775807 -1,1,38,32767 -641444975,0,-2147483648,934802076",
        "lane 0: 0\nlane 1: 4294967294\nlane 2: 3822\nlane 3: 3758129152\n",
    ),
    (
        "int f10(unsigned char a, signed char b) { return (((unsigned)(+a)) + (a + a) - (a ^ b)) << (((short)(!(b ^ b))) & 31); }",
        "lanes --isa b f.c _ZGVbN4vv_f10 -- 1,25,78,255 -128",
        "lane 0: 260\nlane 1: 356\nlane 2: 568\nlane 3: 1788\n",
    ),
    (
        "unsigned f14(unsigned a, unsigned long b) { return b | (~((unsigned)b)) & ((unsigned)(a * (256UL >> (a & 31)))); }",
        "lanes --isa b f.c _ZGVbN4vv_f14 24,1529018654,4294967295,1853321080 18446744073709551615,14335417819100758744,1,74",
        "lane 0: 4294967295\nlane 1: 3729670872\nlane 2: 1\nlane 3: 74\n",
    ),
    (
        "int f18(unsigned long a, unsigned b) { return a >> (((a - b > b + 0377) > (((unsigned)b) << (b & 31))) & 31); }",
        "lanes --isa b f.c _ZGVbN4vv_f18 2,0,5170038501075836401,18168867725984536839 2,4294967295,0,1",
        "lane 0: 2\nlane 1: 0\nlane 2: -170135816\nlane 3: 442374407\n",
    ),
    (
        "unsigned f22(signed char a) { return ((unsigned char)(a ^ a ^ a & a)) | ((+07 + ((int)0xffffffffl)) ^ (((int)a) <= (short)0172427)); }",
        "lanes --isa b f.c _ZGVbN4v_f22 -- -1,-101,-128,0",
        "lane 0: 255\nlane 1: 159\nlane 2: 134\nlane 3: 6\n",
    ),
    (
        "int f26(long a, unsigned b) { return (int)(b >> (28010l & 31)) - ((a << (a & 31)) == a) | 0400u; }",
        "lanes --isa b f.c _ZGVbN4vv_f26 0,-3826090031477680504,0,-1 697416057,2534862063,1503378216,2",
        "lane 0: 681325\nlane 1: 2475451\nlane 2: 1468397\nlane 3: 256\n",
    ),
    (
        "unsigned f30(unsigned char a) { return 01 | (((a & a) != 1u) | (017777777777 + a) | 0x2UL); }",
        "lanes --isa b f.c _ZGVbN4v_f30 2,8,216,52",
        "lane 0: 2147483651\nlane 1: 2147483655\nlane 2: 2147483863\nlane 3: 2147483699\n",
    ),
    (
        "int f34(unsigned short a, unsigned long b, int c) { return ((!c) - a) - ((b << (c & 31)) >> (c & 31)) | a; }",
        "lanes --isa b f.c _ZGVbN4vvv_f34 0,13623,2,0 9084850781765996454,9039146879774685007,4527366605540363063,48 0,-2147483648,-1,2147483647",
        "lane 0: -77041573\nlane 1: -428673153\nlane 2: 751629511\nlane 3: -48\n",
    ),
    (
        "unsigned f38(short a, int b) { return +(((a << (0xffffffffl & 31)) * (b << (2l & 31))) ^ ((-a) + 65535l)); }",
        "lanes --isa b f.c _ZGVbN4vv_f38 13490,-1,1,25623 1,-1,1023003292,1",
        "lane 0: 52045\nlane 1: 65536\nlane 2: 65534\nlane 3: 39912\n",
    ),
];

// Results of `long` and `unsigned long`.
pub(super) static LONGS: [(&str, &str, &str); 10] = [
    (
        "long f3(long a, unsigned b, int c) { return ((a + b > c) | (02l + 0x2l) & a - 0xe584u) ^ ((256u - 4294967295 & c + c) >> (0x7UL & 31)); }",
        "lanes --isa b f.c _ZGVbN2vvv_f3 1,9223372036854775807 4294967295,29 0,0",
        "lane 0: 5\nlane 1: 0\n",
    ),
    (
        "unsigned long f7(unsigned a) { return -(a + +a) - +((unsigned char)(a - 00)); }",
        "lanes --isa b f.c _ZGVbN2v_f7 0,2",
        "lane 0: 0\nlane 1: 4294967290\n",
    ),
    (
        "long f11(unsigned a, short b, short c) { return (0400UL - ((a < 0177777) >> ((b & b) & 31))) <= (+(0x1ll & b)) - (((int)a) + c < b); }",
        "lanes --isa b f.c _ZGVbN2vvv_f11 3909583290,4294967295 0,32767 2079",
        "lane 0: 1\nlane 1: 0\n",
    ),
    (
        "unsigned long f15(signed char a) { return (a == -a != +(-65535UL)) * ((0x1766e947f >> ((a | a) & 31)) << (((a >= a) + (-a)) & 31)); }",
        "lanes --isa b f.c _ZGVbN2v_f15 0,108",
        "lane 0: 12563851518\nlane 1: 3216345399296\n",
    ),
    (
        "long f19(unsigned a, unsigned short b) { return (((int)a) + +b | 2) ^ b; }",
        "lanes --isa b f.c _ZGVbN2vv_f19 0,1973221085 2,42606",
        "lane 0: 0\nlane 1: 1973238565\n",
    ),
    (
        "unsigned long f23(unsigned char a, long b, signed char c) { return (unsigned char)(!0x1u * ((int)b)) | (-((b - 03u) >= (int)07u)); }",
        "lanes --isa b f.c _ZGVbN2vvv_f23 2,2 9223372036854775807,-1 0,34",
        "lane 0: 18446744073709551615\nlane 1: 0\n",
    ),
    (
        "long f27(unsigned long a, unsigned short b) { return (a >> (((b * 012321) | a >= b) & 31)) - ((signed char)(b | b) != ((b * a) | 2775032364l * b)); }",
        "lanes --isa b f.c _ZGVbN2vv_f27 18446744073709551615,13218587568686633623 65535,2",
        "lane 0: 562949953421310\nlane 1: 1652323446085829201\n",
    ),
    (
        "unsigned long f31(short a, int b) { return (short)(256UL * ((a | b) + (0377UL >> (b & 31)))); }",
        "lanes --isa b f.c _ZGVbN2vv_f31 -- 28,90 -2147483648,1",
        "lane 0: 6912\nlane 1: 18446744073709541888\n",
    ),
    (
        "long f35(short a) { return (short)((unsigned)((0x100UL | a) >> ((0377 < a) & 31))); }",
        "lanes --isa b f.c _ZGVbN2v_f35 -- -6403,-1",
        "lane 0: -6147\nlane 1: -1\n",
    ),
    (
        "unsigned long f39(unsigned a, long b) { return (-(b * b)) - ((65535 >> (0377u & 31)) | a - b) | 03l; }",
        "lanes --isa b f.c _ZGVbN2vv_f39 -- 0,0 -1,9223372036854775807",
        "lane 0: 18446744073709551615\nlane 1: 9223372036854775807\n",
    ),
];
