//! The fixed parts of a picture. These are its styles, the points of its arrows, and its key.

/// The styles that do not depend on light or dark. The line, the point and the name of a message show its kind.
pub(crate) const RULES: &str = "\
text{font:12px sans-serif}
.place,.what,.says,.cause,.foot text{font-family:monospace}
.place,.cause{text-anchor:end}
.name,.owns{text-anchor:middle}
.name{font-weight:700;font-size:13px}
.what{font-size:11px;clip-path:url(#column)}
.cause{font-size:11px}
.says{white-space:pre}
.count .says,.ignored .says{font-style:italic}
.foot text{font-size:11px;clip-path:url(#card)}
.line{stroke-width:2}
.way{fill:none}
.lost{opacity:.65}
.cross{stroke-width:2.6}
.ring,.no{stroke-width:2}
.Suggest,.Propose{stroke-width:2.2}
.Accepted{stroke-width:1.3}
.Prepare{stroke-width:1.6;stroke-dasharray:8 4}
.Promise{stroke-width:1.4;stroke-dasharray:4 3}
.Learn{stroke-width:2;stroke-dasharray:1.5 4;stroke-linecap:round}
.Skip{stroke-width:1.6;stroke-dasharray:10 3 2 3}
.sent *{stroke-width:1;stroke-dasharray:none}
.sent text{stroke:none}
.sent .tick{stroke-width:2}
";

/// The colours on light. Also the colours on dark, which a viewing program uses if it knows `light-dark()` and the
/// scheme is `Both`.
pub(crate) const COLOURS: &str = "\
text{fill:#1f2933;fill:light-dark(#1f2933,#e4e8ec)}
.place,.owns,.cause,.what{fill:#55606c;fill:light-dark(#55606c,#a7b1bb)}
.count .says{fill:#55606c;fill:light-dark(#55606c,#a7b1bb)}
.refused .says,.ignored .says{fill:#b3261e;fill:light-dark(#b3261e,#ff8a80)}
.paper,.card,.backing{fill:#fff;fill:light-dark(#fff,#15191e)}
.card{stroke:#c4ccd4;stroke:light-dark(#c4ccd4,#3b444e)}
stop{stop-color:#fff;stop-color:light-dark(#fff,#15191e)}
.rule{stroke:#e6eaee;stroke:light-dark(#e6eaee,#262c33)}
.line{stroke:#bcc6d0;stroke:light-dark(#bcc6d0,#46505b)}
.dot{fill:#1f2933;fill:light-dark(#1f2933,#e4e8ec)}
.ring,.no{fill:#fff;fill:light-dark(#fff,#15191e)}
.ring{stroke:#1f2933;stroke:light-dark(#1f2933,#e4e8ec)}
.no,.cross{stroke:#b3261e;stroke:light-dark(#b3261e,#ff8a80)}
.key .way,.key .open,.key .hollow{stroke:#55606c;stroke:light-dark(#55606c,#a7b1bb)}
.key .full{fill:#55606c;fill:light-dark(#55606c,#a7b1bb)}
.hollow{fill:#fff;fill:light-dark(#fff,#15191e)}
.s0{stroke:#0067b1;stroke:light-dark(#0067b1,#64b5f6)}
.f0{fill:#0067b1;fill:light-dark(#0067b1,#64b5f6)}
.t0{fill:#e5f1fa;fill:light-dark(#e5f1fa,#16293a)}
.s1{stroke:#b8440b;stroke:light-dark(#b8440b,#ff9e63)}
.f1{fill:#b8440b;fill:light-dark(#b8440b,#ff9e63)}
.t1{fill:#fcece2;fill:light-dark(#fcece2,#38241a)}
.s2{stroke:#00775a;stroke:light-dark(#00775a,#3fd0a4)}
.f2{fill:#00775a;fill:light-dark(#00775a,#3fd0a4)}
.t2{fill:#e0f4ee;fill:light-dark(#e0f4ee,#122d26)}
.s3{stroke:#a0368c;stroke:light-dark(#a0368c,#f19be0)}
.f3{fill:#a0368c;fill:light-dark(#a0368c,#f19be0)}
.t3{fill:#fae8f6;fill:light-dark(#fae8f6,#351f31)}
.s4{stroke:#806000;stroke:light-dark(#806000,#e8c547)}
.f4{fill:#806000;fill:light-dark(#806000,#e8c547)}
.t4{fill:#faf1d7;fill:light-dark(#faf1d7,#302a14)}
.s5{stroke:#5b4bc4;stroke:light-dark(#5b4bc4,#b3a8ff)}
.f5{fill:#5b4bc4;fill:light-dark(#5b4bc4,#b3a8ff)}
.t5{fill:#eceafb;fill:light-dark(#eceafb,#252140)}
.s6{stroke:#4f5a65;stroke:light-dark(#4f5a65,#c3ccd5)}
.f6{fill:#4f5a65;fill:light-dark(#4f5a65,#c3ccd5)}
.t6{fill:#edf0f2;fill:light-dark(#edf0f2,#262c33)}
.on{fill:#fff;fill:light-dark(#fff,#101418)}
";

/// The colours on dark.
pub(crate) const DARK_COLOURS: &str = "\
text{fill:#e4e8ec}
.place,.owns,.cause,.what{fill:#a7b1bb}
.count .says{fill:#a7b1bb}
.refused .says,.ignored .says{fill:#ff8a80}
.paper,.card,.backing{fill:#15191e}
.card{stroke:#3b444e}
stop{stop-color:#15191e}
.rule{stroke:#262c33}
.line{stroke:#46505b}
.dot{fill:#e4e8ec}
.ring,.no{fill:#15191e}
.ring{stroke:#e4e8ec}
.no,.cross{stroke:#ff8a80}
.key .way,.key .open,.key .hollow{stroke:#a7b1bb}
.key .full{fill:#a7b1bb}
.hollow{fill:#15191e}
.s0{stroke:#64b5f6}
.f0{fill:#64b5f6}
.t0{fill:#16293a}
.s1{stroke:#ff9e63}
.f1{fill:#ff9e63}
.t1{fill:#38241a}
.s2{stroke:#3fd0a4}
.f2{fill:#3fd0a4}
.t2{fill:#122d26}
.s3{stroke:#f19be0}
.f3{fill:#f19be0}
.t3{fill:#351f31}
.s4{stroke:#e8c547}
.f4{fill:#e8c547}
.t4{fill:#302a14}
.s5{stroke:#b3a8ff}
.f5{fill:#b3a8ff}
.t5{fill:#252140}
.s6{stroke:#c3ccd5}
.f6{fill:#c3ccd5}
.t6{fill:#262c33}
.on{fill:#101418}
";

/// The points of arrows, by kind and owner. Also the definitions that cut off texts that may be too long.
pub(crate) const DEFINITIONS: &str = "\
<defs>
<marker id='full0' viewBox='0 0 12 12' refX='10.5' refY='6' markerWidth='12' markerHeight='12' markerUnits='userSpaceOnUse' orient='auto'><path class='f0' d='M1 1L11 6L1 11z'/></marker>
<marker id='hollow0' viewBox='0 0 12 12' refX='10.5' refY='6' markerWidth='12' markerHeight='12' markerUnits='userSpaceOnUse' orient='auto'><path class='hollow s0' stroke-width='1.6' d='M1.5 1.5L10.5 6L1.5 10.5z'/></marker>
<marker id='open0' viewBox='0 0 12 12' refX='10.5' refY='6' markerWidth='12' markerHeight='12' markerUnits='userSpaceOnUse' orient='auto'><path class='s0' fill='none' stroke-width='1.8' d='M2 1.5L10.5 6L2 10.5'/></marker>
<marker id='full1' viewBox='0 0 12 12' refX='10.5' refY='6' markerWidth='12' markerHeight='12' markerUnits='userSpaceOnUse' orient='auto'><path class='f1' d='M1 1L11 6L1 11z'/></marker>
<marker id='hollow1' viewBox='0 0 12 12' refX='10.5' refY='6' markerWidth='12' markerHeight='12' markerUnits='userSpaceOnUse' orient='auto'><path class='hollow s1' stroke-width='1.6' d='M1.5 1.5L10.5 6L1.5 10.5z'/></marker>
<marker id='open1' viewBox='0 0 12 12' refX='10.5' refY='6' markerWidth='12' markerHeight='12' markerUnits='userSpaceOnUse' orient='auto'><path class='s1' fill='none' stroke-width='1.8' d='M2 1.5L10.5 6L2 10.5'/></marker>
<marker id='full2' viewBox='0 0 12 12' refX='10.5' refY='6' markerWidth='12' markerHeight='12' markerUnits='userSpaceOnUse' orient='auto'><path class='f2' d='M1 1L11 6L1 11z'/></marker>
<marker id='hollow2' viewBox='0 0 12 12' refX='10.5' refY='6' markerWidth='12' markerHeight='12' markerUnits='userSpaceOnUse' orient='auto'><path class='hollow s2' stroke-width='1.6' d='M1.5 1.5L10.5 6L1.5 10.5z'/></marker>
<marker id='open2' viewBox='0 0 12 12' refX='10.5' refY='6' markerWidth='12' markerHeight='12' markerUnits='userSpaceOnUse' orient='auto'><path class='s2' fill='none' stroke-width='1.8' d='M2 1.5L10.5 6L2 10.5'/></marker>
<marker id='full3' viewBox='0 0 12 12' refX='10.5' refY='6' markerWidth='12' markerHeight='12' markerUnits='userSpaceOnUse' orient='auto'><path class='f3' d='M1 1L11 6L1 11z'/></marker>
<marker id='hollow3' viewBox='0 0 12 12' refX='10.5' refY='6' markerWidth='12' markerHeight='12' markerUnits='userSpaceOnUse' orient='auto'><path class='hollow s3' stroke-width='1.6' d='M1.5 1.5L10.5 6L1.5 10.5z'/></marker>
<marker id='open3' viewBox='0 0 12 12' refX='10.5' refY='6' markerWidth='12' markerHeight='12' markerUnits='userSpaceOnUse' orient='auto'><path class='s3' fill='none' stroke-width='1.8' d='M2 1.5L10.5 6L2 10.5'/></marker>
<marker id='full4' viewBox='0 0 12 12' refX='10.5' refY='6' markerWidth='12' markerHeight='12' markerUnits='userSpaceOnUse' orient='auto'><path class='f4' d='M1 1L11 6L1 11z'/></marker>
<marker id='hollow4' viewBox='0 0 12 12' refX='10.5' refY='6' markerWidth='12' markerHeight='12' markerUnits='userSpaceOnUse' orient='auto'><path class='hollow s4' stroke-width='1.6' d='M1.5 1.5L10.5 6L1.5 10.5z'/></marker>
<marker id='open4' viewBox='0 0 12 12' refX='10.5' refY='6' markerWidth='12' markerHeight='12' markerUnits='userSpaceOnUse' orient='auto'><path class='s4' fill='none' stroke-width='1.8' d='M2 1.5L10.5 6L2 10.5'/></marker>
<marker id='full5' viewBox='0 0 12 12' refX='10.5' refY='6' markerWidth='12' markerHeight='12' markerUnits='userSpaceOnUse' orient='auto'><path class='f5' d='M1 1L11 6L1 11z'/></marker>
<marker id='hollow5' viewBox='0 0 12 12' refX='10.5' refY='6' markerWidth='12' markerHeight='12' markerUnits='userSpaceOnUse' orient='auto'><path class='hollow s5' stroke-width='1.6' d='M1.5 1.5L10.5 6L1.5 10.5z'/></marker>
<marker id='open5' viewBox='0 0 12 12' refX='10.5' refY='6' markerWidth='12' markerHeight='12' markerUnits='userSpaceOnUse' orient='auto'><path class='s5' fill='none' stroke-width='1.8' d='M2 1.5L10.5 6L2 10.5'/></marker>
<marker id='full6' viewBox='0 0 12 12' refX='10.5' refY='6' markerWidth='12' markerHeight='12' markerUnits='userSpaceOnUse' orient='auto'><path class='f6' d='M1 1L11 6L1 11z'/></marker>
<marker id='hollow6' viewBox='0 0 12 12' refX='10.5' refY='6' markerWidth='12' markerHeight='12' markerUnits='userSpaceOnUse' orient='auto'><path class='hollow s6' stroke-width='1.6' d='M1.5 1.5L10.5 6L1.5 10.5z'/></marker>
<marker id='open6' viewBox='0 0 12 12' refX='10.5' refY='6' markerWidth='12' markerHeight='12' markerUnits='userSpaceOnUse' orient='auto'><path class='s6' fill='none' stroke-width='1.8' d='M2 1.5L10.5 6L2 10.5'/></marker>
<clipPath id='column'><rect x='50' y='-12' width='262' height='24'/></clipPath>
<clipPath id='card'><rect x='-90' y='0' width='180' height='92'/></clipPath>
<linearGradient id='fading'><stop offset='0' stop-opacity='0'/><stop offset='1'/></linearGradient>
</defs>
";

/// The key, which explains the lines, points, marks and colours. Its first text is the heading of the cards below the
/// lanes.
pub(crate) const KEY: &str = "\
<text x='38' y='-112'>at the end of the whole schedule:</text>
<g transform='translate(0 0)'><path class='way Suggest' d='M0 0H27'/><path class='full' d='M26 -5L36 0L26 5z'/><text x='42' y='4'>Suggest</text></g>
<g transform='translate(120 0)'><path class='way Propose' d='M0 0H27'/><path class='full' d='M26 -5L36 0L26 5z'/><text x='42' y='4'>Propose</text></g>
<g transform='translate(240 0)'><path class='way Accepted' d='M0 0H27'/><path class='open' fill='none' stroke-width='1.8' d='M27 -4.5L36 0L27 4.5'/><text x='42' y='4'>Accepted</text></g>
<g transform='translate(360 0)'><path class='way Prepare' d='M0 0H27'/><path class='hollow' stroke-width='1.6' d='M26 -5L36 0L26 5z'/><text x='42' y='4'>Prepare</text></g>
<g transform='translate(480 0)'><path class='way Promise' d='M0 0H27'/><path class='open' fill='none' stroke-width='1.8' d='M27 -4.5L36 0L27 4.5'/><text x='42' y='4'>Promise</text></g>
<g transform='translate(600 0)'><path class='way Learn' d='M0 0H27'/><path class='full' d='M26 -5L36 0L26 5z'/><text x='42' y='4'>Learn</text></g>
<g transform='translate(720 0)'><path class='way Skip' d='M0 0H27'/><path class='full' d='M26 -5L36 0L26 5z'/><text x='42' y='4'>Skip</text></g>
<g transform='translate(0 24)'><circle class='dot' cx='8' r='5.5'/><text x='24' y='4'>asked from outside</text></g>
<g transform='translate(160 24)'><circle class='ring' cx='8' r='5.5'/><text x='24' y='4'>heard</text></g>
<g transform='translate(242 24)'><path class='full' d='M8 -9L17 0L8 9L-1 0z'/><text x='24' y='4'>learned</text></g>
<g transform='translate(334 24)'><path class='full' d='M1 -7H15V7H1z'/><text x='24' y='4'>executed</text></g>
<g transform='translate(432 24)'><circle class='no' cx='8' r='6'/><path class='no' d='M4 4L12 -4'/><text x='24' y='4'>refused</text></g>
<g transform='translate(520 24)'><path class='way lost Suggest' d='M0 0H30'/><path class='cross' d='M31 -7L45 7M45 -7L31 7'/><text x='54' y='4'>lost: its arrow is pale, with no point</text></g>
<g transform='translate(0 48)'><circle class='f0' cx='4' r='4.5'/><circle class='f1' cx='13' r='4.5'/><circle class='f2' cx='22' r='4.5'/><text x='36' y='4'>the colour of a message, a box and a filled mark is that of the server that owns the instance</text></g>
<text x='0' y='76'>i instance, b ballot, V@b a vote for V at ballot b</text>
<text x='0' y='100'>the end of an arrow alone: its message was sent more than 30 events above (8 by the same server), or by an event not drawn</text>
";
